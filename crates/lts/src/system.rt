// What can be asked of a procedure, or of two side by side, whatever form they are kept in.
ghost use Rattle.std.specs.Prelude.{◌≡◌, length};
ghost use Rattle.std.specs.List.{slice_get};
ghost use Rattle.lts.specs.Meaning.{Meaning, Lawful};

// At most 256 states: two procedures of 128.
pub trait System {
    ghost meaning: { Self → Meaning };

    // The number of states.
    fn states(&self) -> usize
        ensures { result ≡ (meaning self.now).count };

    fn is_end(&self, s: usize) -> bool
        ensures { result ≡ (meaning self.now).ends s };

    // How many steps are listed out of state s.
    fn step_count(&self, s: usize) -> usize
        ensures { result ≡ length ((meaning self.now).steps s) };

    // The k-th step listed out of state s: its action and its target.
    fn step(&self, s: usize, k: usize) -> Option<(u8, u8)>
        ensures { result ≡ slice_get ((meaning self.now).steps s) k };

    ghost lawful: { (x : Self) → Lawful 256 (meaning x) };
}
