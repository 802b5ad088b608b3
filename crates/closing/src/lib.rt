// particle.rs: the closing move, of one particle and of particles by columns.
#![tactic(auto)]

ghost use Rattle.std.specs.Prelude.{◌≡◌, ◌+◌, ◌*◌, ◌<◌, length};
ghost use Rattle.rules.specs.Sheet.{places_of, speeds_of};
ghost use Rattle.rules.specs.Particle as Rule;
ghost use Rattle.closing.specs.Columns.{particle_at, particles_from};

use number::clamp;
use rules::Particle;

// A place and a velocity on one axis.
#[derive(Clone, Copy)]
pub struct Axis {
    pub place: f64,
    pub speed: f64,
}

// Both flags hold x.
fn holds_x(flags: u64) -> bool
    ensures { result ≡ Rule.holds_x flags }
{
    flags != 0
}

// No flag holds y.
fn holds_y(flags: u64) -> bool
    ensures { result ≡ Rule.holds_y flags }
{
    false
}

// A held axis returns home, velocity 0. The velocity itself isn't clamped.
#[tactic(auto, unfolding(rules::specs::Particle::moved_axis))]
fn moved_axis(held: bool, home: f64, decay: f64, p: f64, v: f64) -> Axis
    ensures { Rule.axis result.place result.speed ≡ Rule.moved_axis held home decay p v }
{
    if held {
        return Axis {
            place: home,
            speed: 0.0,
        };
    }
    let step = clamp(v, -2147483648.0, 2147483647.0);
    Axis {
        place: p + step,
        speed: v * decay,
    }
}

// One particle whose home is hx, hy.
#[tactic(auto, unfolding(rules::specs::Particle::moved))]
pub fn moved(decay: f64, hx: f64, hy: f64, p: Particle) -> Particle
    ensures { result ≡ Rule.moved decay hx hy p }
{
    let x = moved_axis(holds_x(p.flags), hx, decay, p.x, p.vx);
    let y = moved_axis(holds_y(p.flags), hy, decay, p.y, p.vy);
    Particle {
        x: x.place,
        y: y.place,
        vx: x.speed,
        vy: y.speed,
        flags: p.flags,
    }
}

// Particle number i of columns.
fn particle_at(places: &[f64], speeds: &[f64], flags: &[u64], i: usize) -> Particle
    requires { (i * 2 + 1 < length places.now) × (i * 2 + 1 < length speeds.now) × (i < length flags.now) }
    ensures { result ≡ particle_at places.now speeds.now flags.now i }
{
    let j = i * 2;
    Particle {
        x: places[j],
        y: places[j + 1],
        vx: speeds[j],
        vy: speeds[j + 1],
        flags: flags[i],
    }
}

// Every particle; `home` are the places to which held axes return.
pub fn close_all(home: &[f64], places: &mut [f64], speeds: &mut [f64], flags: &[u64], decay: f64)
    requires { (length home.now ≡ length flags.now * 2) × (length places.old ≡ length flags.now * 2) × (length speeds.old ≡ length flags.now * 2) }
    ensures { let closed = Rule.closing decay home.now (particles_from places.old speeds.old flags.now) in
        (places.new ≡ places_of closed) × (speeds.new ≡ speeds_of closed) }
{
    // By number: a proof knows nothing of what is written through a chunk that is lent.
    for i in 0..flags.len() {
        let p = particle_at(places, speeds, flags, i);
        let j = i * 2;
        let q = moved(decay, home[j], home[j + 1], p);
        places[j] = q.x;
        places[j + 1] = q.y;
        speeds[j] = q.vx;
        speeds[j + 1] = q.vy;
    }
}
