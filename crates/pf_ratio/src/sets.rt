// Sets as truth values.
ghost use Rattle.std.specs.Prelude.{◌≡◌, ◌↔◌, IsTrue, ℕ, ◌<◌, ◌≤◌, length, not, true};
ghost use Rattle.pf_model.specs.Cut.{has};

/// Whether each place is chosen exactly where it is not marked.
pub fn is_rest(chosen: &[bool], marks: &[bool]) -> bool
    requires { length chosen.now ≤ length marks.now }
    ensures { IsTrue result ↔ ((v : ℕ) → v < length chosen.now → has chosen.now v ≡ not (has marks.now v)) }
{
    'places: for v in 0..chosen.len() {
        if chosen[v] == marks[v] {
            return false;
        }
    }
    true
}

/// Whether a place is chosen.
pub fn has_some(chosen: &[bool]) -> bool
    ensures { IsTrue result ↔ ((v : ℕ) × (has chosen.now v ≡ true)) }
{
    'places: for v in 0..chosen.len() {
        if chosen[v] {
            return true;
        }
    }
    false
}
