// Which of an object's survivals a collection is.

ghost use Rattle.std.specs.Prelude.{◌≡◌, ℕ};
ghost use Rattle.jm_copy.specs.Image.{older};
ghost use Rattle.jm_copy.specs.Survivals.{survival_of};

/// Which of its survivals a collection is for an object.
#[derive(Clone, Copy)]
pub enum Survival {
    First,
    Later,
}

impl Survival {
    /// Which one it is for an object that has survived so many.
    #[inline(always)]
    pub fn of(age: u8) -> Survival
        ensures { result ≡ survival_of age }
    {
        match age {
            0 => Survival::First,
            _ => Survival::Later,
        }
    }

    /// The age of the copy: how many collections it has survived then, or 2 for more.
    #[inline(always)]
    pub fn age(self) -> u8
        ensures { (n : ℕ) → survival_of n ≡ self → result ≡ older n }
    {
        match self {
            Survival::First => 1,
            Survival::Later => 2,
        }
    }
}
