//! The draws by which workers pick pools.
ghost use Rattle.std.specs.Prelude.{◌≡◌};
ghost use Rattle.lane_model.specs.Lanes.{draw, following};

/// By how much draws differ from one datagram to the next: 2^64 divided by the golden ratio, so that successive draws spread evenly.
const STEP_OF_DATAGRAMS: u128 = 11_400_714_819_323_198_485;

/// By how much they differ from one worker to the next: a sixteenth of all draws.
const STEP_OF_WORKERS: u128 = 1 << 60;

/// How many draws there are.
const DRAWS: u128 = 1 << 64;

/// The draw of a worker for its datagram of that number, counted from 0: below 2^64, spread evenly over successive
/// datagrams, and begun elsewhere by each of sixteen workers.
pub fn draw_of(worker: u8, number: u64) -> u64
    ensures { result ≡ draw worker number }
{
    let n = number as u128 + 1;
    let w = worker as u128;
    ((n * STEP_OF_DATAGRAMS + w * STEP_OF_WORKERS) % DRAWS) as u64
}

/// The number of the next datagram.
pub fn next_number(number: u64) -> u64
    ensures { result ≡ following number }
{
    number.wrapping_add(1)
}
