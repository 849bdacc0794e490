//! What no order is to come to.

ghost use Rattle.std.specs.Prelude.{◌≡◌, IfNone, IfSome};
ghost use Rattle.run_interface.specs.Denied.{IsNoWord, denial_word, denies, none_denied, with_denial};

/// What an order can be denied to come to.
#[derive(Clone, Copy, Debug, PartialEq, Eq)]
pub enum Denial {
    /// An end at which a task waits.
    Parked,
    /// A turn that throws.
    Threw,
    /// A turn that would leave a standing condition untrue.
    Broke,
    /// A turn whose arithmetic overflows.
    Overflow,
    /// A turn that divides by zero.
    ZeroDiv,
    /// A turn that names a cell outside its table.
    Outside,
}

impl Denial {
    /// The one of this word. `None` where it is the word of none.
    pub fn named(word: &str) -> Option<Denial>
        ensures known { IfSome result (λ denial. word.now ≡ denial_word denial) }
        ensures unknown { IfNone result (IsNoWord word.now) }
    {
        match word {
            "parked" => Some(Denial::Parked),
            "threw" => Some(Denial::Threw),
            "broke" => Some(Denial::Broke),
            "overflow" => Some(Denial::Overflow),
            "zerodiv" => Some(Denial::ZeroDiv),
            "outside" => Some(Denial::Outside),
            _ => None,
        }
    }
}

/// What is denied.
#[derive(Clone, Copy, Debug, PartialEq, Eq)]
pub struct Denials {
    pub parked: bool,
    pub threw: bool,
    pub broke: bool,
    pub overflow: bool,
    pub zerodiv: bool,
    pub outside: bool,
}

impl Denials {
    /// Nothing is.
    pub fn none() -> Denials
        ensures { result ≡ none_denied }
    {
        Denials {
            parked: false,
            threw: false,
            broke: false,
            overflow: false,
            zerodiv: false,
            outside: false,
        }
    }

    /// This one is denied, too.
    pub fn with(self, denial: Denial) -> Denials
        ensures { result ≡ with_denial self denial }
    {
        let mut denied = self;
        match denial {
            Denial::Parked => denied.parked = true,
            Denial::Threw => denied.threw = true,
            Denial::Broke => denied.broke = true,
            Denial::Overflow => denied.overflow = true,
            Denial::ZeroDiv => denied.zerodiv = true,
            Denial::Outside => denied.outside = true,
        }
        denied
    }

    /// Whether this one is denied.
    pub fn has(self, denial: Denial) -> bool
        ensures { result ≡ denies self denial }
    {
        match denial {
            Denial::Parked => self.parked,
            Denial::Threw => self.threw,
            Denial::Broke => self.broke,
            Denial::Overflow => self.overflow,
            Denial::ZeroDiv => self.zerodiv,
            Denial::Outside => self.outside,
        }
    }
}
