// The table of code points, as those who are lent it know it.
ghost use Rattle.std.specs.Prelude.{◌≡◌};
ghost use Rattle.alphabet.specs.Paper.{alphabet, code_point, pair_point};

use alphabet::tables::CODE_POINTS;

// The code point of each septet.
#[derive(Clone, Copy)]
pub(crate) struct Points<'a> {
    by_septet: &'a [u16; 128],
    ghost of_alphabet: { by_septet.now ≡ alphabet },
}

impl Points<'_> {
    // The code point that a septet reads as.
    #[tactic(auto, using(alphabet::proofs::Laws::point_by_lem))]
    pub(crate) fn of(self, septet: u8) -> u16
        ensures { result ≡ code_point septet }
    {
        alphabet::code_point_by(self.by_septet, septet)
    }

    // The code point that 1B and a septet read as.
    #[tactic(auto, using(alphabet::proofs::Laws::pair_point_by_lem))]
    pub(crate) fn of_pair(self, septet: u8) -> u16
        ensures { result ≡ pair_point septet }
    {
        alphabet::pair_point_by(self.by_septet, septet)
    }
}

// The code points of the default alphabet.
pub(crate) fn default_alphabet() -> Points<'static> {
    Points {
        by_septet: &CODE_POINTS,
    }
}
