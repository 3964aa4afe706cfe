// The state that a host lends: nine numbers, the bits of a second coordinate and how many records there are of each kind.
ghost use Rattle.std.specs.Prelude.{◌≡◌, ◌≤◌, length};
ghost use Rattle.writer_host.specs.Host.{counts_in, is_within, is_state, counts_or, state_with};

use crate::answer::Refused;
use layout::Counts;

// The counts that the numbers are.
fn counts_in(state: &[u32]) -> Counts
    requires { 9 ≤ length state.now }
    ensures { result ≡ counts_in state.now }
{
    Counts {
        across: state[0],
        policies: state[1],
        stops: state[2],
        lines: state[3],
        cars: state[4],
        aboards: state[5],
        waits: state[6],
        demands: state[7],
        closures: state[8],
    }
}

// Whether counts are within the table.
fn is_within(c: Counts) -> bool
    ensures { result ≡ is_within c }
{
    ((c.across == 0) | (c.across == 64))
        & ((c.policies <= 1)
            & ((c.stops <= 64)
                & ((c.lines <= 8)
                    & ((c.cars <= 32)
                        & ((c.aboards <= 512)
                            & ((c.waits <= 512)
                                & ((c.demands <= 65535) & (c.closures <= 65535))))))))
}

// Whether the numbers are a state.
fn is_state(state: &[u32]) -> bool
    ensures { result ≡ is_state state.now }
{
    if state.len() < 9 {
        return false;
    }
    is_within(counts_in(state))
}

// The counts; 1 where the numbers are no state, 8 where the codes are not known.
pub fn counts(state: &[u32], known: bool) -> Result<Counts, Refused>
    ensures { result ≡ counts_or state.now known }
{
    if !is_state(state) {
        return Err(Refused::NoState);
    }
    if !known {
        return Err(Refused::Value);
    }
    Ok(counts_in(state))
}

// Stores counts.
pub fn store(state: &mut [u32], c: Counts)
    requires { 9 ≤ length state.old }
    ensures { state.new ≡ state_with c state.old }
{
    state[0] = c.across;
    state[1] = c.policies;
    state[2] = c.stops;
    state[3] = c.lines;
    state[4] = c.cars;
    state[5] = c.aboards;
    state[6] = c.waits;
    state[7] = c.demands;
    state[8] = c.closures;
}
