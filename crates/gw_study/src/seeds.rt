//! The seeds of the runs of a study.

ghost use Rattle.std.specs.Prelude.{◌≡◌, ◌<◌, ◌≤◌, ◌+◌, ◌*◌, map};
ghost use Rattle.std.specs.List.{All, range_with_len};
ghost use Rattle.gw_study.specs.Seeds as model;
ghost use Rattle.gw_study.specs.Seeds.{after_jump, seed_at, seeds_of_run, IsSeed};

/// How far two seeds are apart: 48271 to the 131,071th, modulo 2147483647, so that a stream makes as many draws before it comes to
/// where the next one begins.
const JUMP: u64 = 789_557_446;

/// The modulus of the streams.
const MODULUS: u64 = 2_147_483_647;

/// The seed behind one.
fn jump(seed: u32) -> u32
    requires { IsSeed seed }
    ensures value { result ≡ after_jump seed }
    ensures seed { IsSeed result }
{
    (JUMP * u64::from(seed) % MODULUS) as u32
}

/// The seed at a place, from 0.
fn seed(place: u32) -> u32
    ensures value { result ≡ seed_at place }
    ensures seed { IsSeed result }
{
    let mut seed = 1;
    for _ in 0..place {
        seed = jump(seed);
    }
    seed
}

/// The seeds of the 16 streams of a run, from 0: the next 16 behind those of the run before. A stream makes 131,071 draws before it
/// comes to where the next begins, and stream 1 two million before it comes to where that of the next run does.
pub fn seeds_of(run: u32) -> [u32; 16]
    requires { run < 512 }
    ensures value { result ≡ seeds_of_run run }
    ensures seeds { All (λ seed. seed ≤ 2147483646) result }
{
    let mut seeds = [1; 16];
    for i in 0..16 {
        seeds[i] = seed(16 * run + i as u32);
    }
    seeds
}
