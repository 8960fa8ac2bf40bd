//! Calls by their numbers from 0, some of which are to fail.

ghost use Rattle.std.specs.Prelude.{◌≡◌, ◌==◌, ℕ};
ghost use Rattle.std.specs.List.{list_any};
ghost use Rattle.prl_io.specs.Numbering.{following, fails_at};

/// Which calls are to fail, and the number of the next one. The number is None once every `u64` is
/// used up; such calls do not fail.
#[derive(Drop)]
pub(crate) struct Calls {
    fails: Vec<u64>,
    next: Option<u64>,
}

impl Calls {
    /// No call yet.
    pub(crate) fn new(fails: Vec<u64>) -> Calls
        ensures fails { result.fails ≡ fails }
        ensures next { result.next ≡ Some 0 }
    {
        Calls {
            fails,
            next: Some(0),
        }
    }

    /// Counts a call, and tells whether it is to fail.
    pub(crate) fn fails_now(&mut self) -> bool
        ensures answer { result ≡ fails_at self.old.fails.items self.old.next }
        ensures fails { self.new.fails ≡ self.old.fails }
        ensures next { self.new.next ≡ following self.old.next }
    {
        match self.next {
            Some(number) => {
                self.next = number.checked_add(1);
                is_listed(self.fails.as_slice(), number)
            }
            None => false,
        }
    }
}

fn is_listed(numbers: &[u64], number: u64) -> bool
    ensures { result ≡ list_any (λ listed. listed == number) numbers.now }
{
    numbers.iter().any(|listed| *listed == number)
}
