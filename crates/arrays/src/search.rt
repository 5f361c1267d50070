// The search that finds who has a tick.
ghost use Rattle.std.specs.Prelude.{◌≡◌, nat_lt, position};

// The first place that holds more than 0.
pub fn first_filled(xs: &[u32]) -> Option<usize>
    ensures { result ≡ position (λ x. nat_lt 0 x) xs.now }
{
    xs.iter().position(|x| 0 < *x)
}
