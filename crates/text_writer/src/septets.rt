// The table of septets, as those who are lent it know it.
ghost use Rattle.std.specs.Prelude.{◌≡◌};
ghost use Rattle.alphabet.specs.Inner.{inverse};
ghost use Rattle.alphabet.specs.Paper.{septet_of};

use alphabet::tables::SEPTETS;

// The septet of each code point from U+0000 to U+03A9.
#[derive(Clone, Copy)]
pub(crate) struct Septets<'a> {
    pub(crate) by_code: &'a [u8; 938],
    ghost of_alphabet: { by_code.now ≡ inverse },
}

impl Septets<'_> {
    // The septet that is written for a code point, or `alphabet::NONE`.
    #[tactic(auto, using(alphabet::proofs::Laws::septet_by_lem))]
    pub(crate) fn of(self, code: u16) -> u8
        ensures { result ≡ septet_of code }
    {
        alphabet::septet_by(self.by_code, code)
    }
}

// The septets of the default alphabet.
pub(crate) fn default_alphabet() -> Septets<'static> {
    Septets { by_code: &SEPTETS }
}
