// Two columns to a feature: bytes paired, and pairs taken apart.
ghost use Rattle.std.specs.Prelude.{◌≡◌, suc, ◌-◌, ◌*◌, length, get_or};
ghost use Rattle.parity.specs.Lists.{tabulate};
ghost use Rattle.router_ranges.specs.Ranges.{paired};
ghost use Rattle.router.specs.Pairs.{PairsLent, PairsRead};

// Each byte of the first, and after it what its neighbour of the second leaves of the top level.
pub(crate) fn pair(top: u8, xs: &[u8], ys: &[u8], to: &mut [u8])
    requires { PairsLent top xs.now ys.now (length to.old) }
    ensures { to.new ≡ paired top xs.now ys.now }
{
    for i in 0..xs.len() {
        to[i + i] = xs[i];
        to[i + i + 1] = top - ys[i];
    }
}

// Takes pairs apart again, as many as the buffers hold: the highs as they stand, and of the lows what is left of the top level.
pub(crate) fn unpair(top: u8, pairs: &[u8], lows: &mut [u8], highs: &mut [u8])
    requires { PairsRead (length pairs.now) (length lows.old) (length highs.old) }
    ensures low { lows.new ≡ tabulate (length lows.old) (λ i. top - get_or pairs.now (suc (2 * i)) 0) }
    ensures high { highs.new ≡ tabulate (length lows.old) (λ i. get_or pairs.now (2 * i) 0) }
{
    for i in 0..lows.len() {
        highs[i] = pairs[i + i];
        lows[i] = top.saturating_sub(pairs[i + i + 1]);
    }
}
