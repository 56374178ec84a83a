//! Laws of the definitions, each the contract of a function that does nothing.
ghost use Rattle.std.specs.Prelude.{◌≡◌, ◌<◌, ℕ, List};
ghost use Rattle.cache_types.specs.declared.outer.OuterReply.{OuterReply};
ghost use Rattle.edge_body.specs.Heads.{Request};
ghost use Rattle.edge_imports.specs.Links.{LinkedModule};
ghost use Rattle.wasm_meaning.specs.Frames.{Program as Code, State};
ghost use Rattle.player.specs.Plays.{Program};
ghost use Rattle.guest_calls.specs.declared.call.Call.{Call as ACall};
ghost use Rattle.guest_calls.specs.declared.tables.GuestTables.{GuestTables as Tables};
ghost use Rattle.guest_run.specs.declared.service.Service.{Service as AService};
ghost use Rattle.guest_run.specs.Next.{Goes_on, live};
ghost use Rattle.guest_run.specs.Services.{fuel_in, settings_in, random_in, IsServiceOf, IsGuestProgram};

use wasm_sound::valid_modules_start_typed;

/// Each guest of a service has a program: the code of a linked module begins somewhere, or its instance is a trap.
pub fn each_guest_has_a_program()
    ensures { (l : LinkedModule) (service : AService) (index : ℕ) (head : Request) (body : List ℕ) → IsServiceOf l service → (program : Program) × IsGuestProgram l (settings_in service) (fuel_in service) (random_in service) index head body program }
{
    valid_modules_start_typed();
}

/// The bound of the definition is never reached: each above the fuel gives the same.
pub fn fuel_is_enough()
    ensures { (one other : ℕ) (code : Code) (calls : List ACall) (back : Goes_on) (fuel : ℕ) (s : State) (t : Tables) (replies : List OuterReply) → fuel < one → fuel < other → live one code calls back fuel s t replies ≡ live other code calls back fuel s t replies }
{}
