//! Which signs have been loaded, the last one first (profile).

ghost use Rattle.board_app.specs.Kinds.{OneOfEach};

/// One more than the greatest code of a sign.
const CODES: usize = 127;

/// The codes of the signs that have been loaded. They stand at the end of the array, the last one first.
#[derive(Clone, Copy)]
pub struct Signs {
    codes: [u8; 127],
    first: usize,
    ghost kept: { OneOfEach codes first },
}

impl Signs {
    ghost use Rattle.std.specs.Prelude.{◌≡◌, ◌≤◌, false, [], ◌∷◌};
    ghost use Rattle.session_rules.specs.Board.{is_member, with_member};
    ghost use Rattle.board_app.specs.Loaded.{loaded_codes};

    /// No sign.
    #[tactic(auto, unfolding(crate::specs::Kinds::kinds))]
    pub fn new() -> Signs
        ensures { loaded_codes result ≡ [] }
    {
        Signs {
            codes: [0; 127],
            first: CODES,
        }
    }

    /// Whether a sign has been loaded.
    pub fn has(&self, code: u8) -> bool
        ensures { result ≡ is_member code (loaded_codes self.now) }
    {
        for i in self.first..CODES {
            if self.codes[i] == code {
                return true;
            }
        }
        false
    }

    /// These signs and this one, unless it is one of them.
    pub fn with(&self, code: u8) -> Signs
        requires { code ≤ 126 }
        ensures { loaded_codes result ≡ with_member code (loaded_codes self.now) }
    {
        if self.has(code) {
            return *self;
        }
        self.behind(code)
    }

    /// These signs behind one that is none of them.
    fn behind(&self, code: u8) -> Signs
        requires sign { code ≤ 126 }
        requires other { is_member code (loaded_codes self.now) ≡ false }
        ensures { loaded_codes result ≡ code ∷ loaded_codes self.now }
    {
        let first = self.first - 1;
        let mut codes = self.codes;
        codes[first] = code;
        Signs { codes, first }
    }
}
