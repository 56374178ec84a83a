//! Laws of the definitions.
ghost use Rattle.std.specs.Prelude.{◌≡◌, ◌↔◌, ℕ, List, Some};
ghost use Rattle.fastly_toml.specs.declared.settings.Backend.{Backend};
ghost use Rattle.fastly_toml.specs.Urls.{backend_of};
ghost use Rattle.fastly_toml.specs.UrlForm.{IsUrl};

/// A url tells a backend just where it has the form of one: `http://` or `https://`, a host, `:` and a port from 1 to
/// 65535 where one is told, a path where there is one. The backend's address is the host, `:` and the port, 80 where none
/// is told.
pub fn a_url_tells_one_backend()
    ensures { (url : List ℕ) (backend : Backend) → (backend_of url ≡ Some backend) ↔ IsUrl url backend }
{}
