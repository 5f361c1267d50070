// The places of the blocks that are kept, at most eight, in order.
ghost use Rattle.std.specs.Prelude.{◌≡◌, ◌<◌, ◌≤◌, [], ◌∷◌, ◌++◌, length};
ghost use Rattle.plan.specs.Ranges.{most_guests};

// A contract sees the list of the places, by `places_of`; what stands behind them says nothing.
#[derive(Clone, Copy)]
pub struct Kept {
    pub places: [usize; 8],
    pub count: usize,
    pub ghost few: { count ≤ 8 },
}

impl Kept {
    ghost use Rattle.salvage.specs.Sifting.{places_of};

    // None is kept yet.
    pub(crate) fn none() -> Self
        ensures { places_of result ≡ [] }
    {
        Kept {
            places: [0; 8],
            count: 0,
        }
    }

    // One place more.
    pub(crate) fn push(&mut self, place: usize)
        requires { length (places_of self.old) < most_guests }
        ensures { places_of self.new ≡ places_of self.old ++ place ∷ [] }
    {
        self.places[self.count] = place;
        self.count += 1;
    }

    // The places.
    pub(crate) fn places(&self) -> &[usize]
        ensures { result.now ≡ places_of self.now }
    {
        &self.places[..self.count]
    }
}
