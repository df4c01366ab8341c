// The syntax pass: whether a text is a sum (REFERENCE 12), and how deep it is, in one loop with two counters, so that no depth
// of brackets and no row of minus signs costs machine stack.
#![tactic(auto)]

ghost use Rattle.std.specs.Prelude.{◌≡◌, ◌+◌, ◌<◌, ◌^◌};
ghost use Rattle.sum_spec.specs.Reading.{token_of, reading};
ghost use Rattle.sum_shape.specs.Pass.{kind_of, shape_of, stuck_pass, pass_after, pass_due, pass_digits, pass_next, pass_end};

// What a byte may be to the pass. `Other` is a kind as the others are: an `Option` round them is no plainer.
#[derive(Clone, Copy, Debug, PartialEq, Eq)]
pub enum Kind {
    Digit,
    Operator,
    Minus,
    Opens,
    Closes,
    Other,
}

// Where the pass stands: a factor is due, in its digits, behind a factor, or no text begins so. `Stuck` is a place as the others are, from which the pass
// goes on to the end: an `Option` round them is no plainer.
#[derive(Clone, Copy, Debug, PartialEq, Eq)]
pub enum Stand {
    Due,
    Digits,
    Behind,
    Stuck,
}

// Where the pass stands, how many brackets are open, and how many were at most.
#[derive(Clone, Copy, Debug, PartialEq, Eq)]
pub struct Pass {
    pub stand: Stand,
    pub depth: usize,
    pub deepest: usize,
}

fn kind_of(c: u8) -> Kind
    ensures { result ≡ kind_of (token_of c) }
{
    match c {
        b'0'..=b'9' => Kind::Digit,
        b'+' | b'*' | b'/' => Kind::Operator,
        b'-' => Kind::Minus,
        b'(' => Kind::Opens,
        b')' => Kind::Closes,
        _ => Kind::Other,
    }
}

impl Pass {
    const START: Pass = Pass {
        stand: Stand::Due,
        depth: 0,
        deepest: 0,
    };

    const STUCK: Pass = Pass {
        stand: Stand::Stuck,
        depth: 0,
        deepest: 0,
    };

    // A byte behind a factor.
    fn after(self, kind: Kind) -> Pass
        ensures { result ≡ pass_after self.depth self.deepest kind }
    {
        match kind {
            Kind::Operator | Kind::Minus => Pass {
                stand: Stand::Due,
                ..self
            },
            Kind::Closes if self.depth != 0 => Pass {
                stand: Stand::Behind,
                depth: self.depth - 1,
                ..self
            },
            _ => Pass::STUCK,
        }
    }

    // A byte where a factor is due.
    fn due(self, kind: Kind) -> Pass
        requires { self.depth + 1 < 2 ^ 64 }
        ensures { result ≡ pass_due self.depth self.deepest kind }
    {
        match kind {
            Kind::Digit => Pass {
                stand: Stand::Digits,
                ..self
            },
            Kind::Minus => Pass {
                stand: Stand::Due,
                ..self
            },
            Kind::Opens => {
                let depth = self.depth + 1;
                Pass {
                    stand: Stand::Due,
                    depth,
                    deepest: self.deepest.max(depth),
                }
            }
            _ => Pass::STUCK,
        }
    }

    fn in_digits(self, kind: Kind) -> Pass
        ensures { result ≡ pass_digits self.depth self.deepest kind }
    {
        match kind {
            Kind::Digit => Pass {
                stand: Stand::Digits,
                ..self
            },
            _ => self.after(kind),
        }
    }

    fn step(self, c: u8) -> Pass
        requires { self.depth + 1 < 2 ^ 64 }
        ensures { result ≡ pass_next self (kind_of (token_of c)) }
    {
        let kind = kind_of(c);
        match self.stand {
            Stand::Due => self.due(kind),
            Stand::Digits => self.in_digits(kind),
            Stand::Behind => self.after(kind),
            Stand::Stuck => Pass::STUCK,
        }
    }

    fn finish(self) -> Option<usize>
        ensures { result ≡ pass_end self }
    {
        match self.stand {
            Stand::Digits | Stand::Behind if self.depth == 0 => Some(self.deepest),
            _ => None,
        }
    }
}

// How many brackets deep the text is, where it is a sum.
pub fn shape_of(text: &[u8]) -> Option<usize>
    ensures { result ≡ shape_of (reading text.now) }
{
    let mut pass = Pass::START;
    for &c in text {
        pass = pass.step(c);
    }
    pass.finish()
}
