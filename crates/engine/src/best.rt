// The best of the candidates so far. Only what is below it can be better, so that the earlier stays where two are equal.
ghost use Rattle.std.specs.Prelude.{◌≡◌, None};
ghost use Rattle.engine.specs.Best.{better};

// What a better one must be below, and what was found.
#[derive(Clone, Copy)]
pub struct Best<M> {
    pub bound: f64,
    pub found: Option<M>,
}

impl<M: Copy> Best<M> {
    // Nothing found so far.
    #[inline]
    pub fn below(bound: f64) -> Best<M>
        ensures { result ≡ record { bound = bound; found = None } }
    {
        Best { bound, found: None }
    }

    // The better of the best so far and one more.
    #[inline]
    pub fn or(self, figure: f64, one: M) -> Best<M>
        ensures { result ≡ better self figure one }
    {
        if figure < self.bound {
            return Best {
                bound: figure,
                found: Some(one),
            };
        }
        self
    }
}
