//! Laws of the definitions.
ghost use Rattle.std.specs.Prelude.{◌≡◌, ℕ, List};
ghost use Rattle.wasm_memory.specs.Linear.{Linear};
ghost use Rattle.edge_abi.specs.declared.asked.Step.{Step};
ghost use Rattle.edge_abi.specs.Goes.{Goes};
ghost use Rattle.edge_abi.specs.Told.{Row};
ghost use Rattle.edge_link.specs.Readings.{Reading};
ghost use Rattle.edge_pending.specs.Rows as rows;
ghost use Rattle.edge_pending.specs.Tables.{HttpAndPending};
ghost use Rattle.edge_pending.specs.declared.under_way.UnderWay.{UnderWay};
ghost use Rattle.fastly_toml.specs.declared.settings.Settings.{Settings as SettingsOf};
ghost use Rattle.pending_laws.specs.Tickets.{Owns, IsTame, StepsTame};

/// Each row names only tickets that are held, whatever it is answered.
pub fn rows_name_what_is_held()
    ensures send { (reads : Reading) (t : HttpAndPending) (s : SettingsOf) (m : Linear) (h body p n o r : ℕ) (has : List ℕ) → Owns has t.sent.pending → IsTame has (rows.http_req_send reads t s m h body p n o r) }
    ensures send_async { (reads : Reading) (t : HttpAndPending) (s : SettingsOf) (m : Linear) (h body p n o : ℕ) (has : List ℕ) → Owns has t.sent.pending → IsTame has (rows.http_req_send_async reads t s m h body p n o) }
    ensures poll { (reads : Reading) (t : HttpAndPending) (m : Linear) (h o r b : ℕ) (has : List ℕ) → Owns has t.sent.pending → IsTame has (rows.http_req_pending_req_poll reads t m h o r b) }
    ensures wait { (reads : Reading) (t : HttpAndPending) (m : Linear) (h r b : ℕ) (has : List ℕ) → Owns has t.sent.pending → IsTame has (rows.http_req_pending_req_wait reads t m h r b) }
    ensures choose { (reads : Reading) (t : HttpAndPending) (m : Linear) (p count o r b : ℕ) (has : List ℕ) → Owns has t.sent.pending → IsTame has (rows.http_req_pending_req_select reads t m p count o r b) }
    ensures select { (reads : Reading) (t : HttpAndPending) (m : Linear) (p count timeout o : ℕ) (has : List ℕ) → Owns has t.sent.pending → IsTame has (rows.async_select reads t m p count timeout o) }
    ensures is_ready { (reads : Reading) (t : HttpAndPending) (m : Linear) (h o : ℕ) (has : List ℕ) → Owns has t.sent.pending → IsTame has (rows.async_is_ready reads t m h o) }
{}

/// And so each step of the code of such a row.
pub fn steps_name_what_is_held()
    ensures { (reads : Reading) (row : Row HttpAndPending) (t : HttpAndPending) (m : Linear) (step : Step UnderWay) (has : List ℕ) → IsTame has row → Goes (rows.resumed reads) row step t m → StepsTame (rows.resumed reads) has step t m }
{}
