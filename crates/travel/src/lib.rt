// The time of a run with ramps: `travel_time` of eta.rs, a function a term, in its order of operations. The run starts at a speed and ends at rest.
#![tactic(auto)]

ghost use Rattle.std.specs.Prelude.{◌≡◌};
ghost use Rattle.travel.specs.Ramps.{clamp_speed, no_run, brake_distance, brake_time, peak_speed, triangle_time, ramp_distance, cruise_distance};
ghost use Rattle.travel.specs.Ramps.{trapezoid_time, run_time, seconds};
ghost use Rattle.travel.specs.Domain.{is_sized, is_rate, in_domain};
ghost use Rattle.travel.specs.Answers.{travel_time_of};

// A run: over a distance, from a speed at the start, by a top speed and two rates.
#[derive(Clone, Copy)]
struct Run {
    distance: f64,
    start: f64,
    top: f64,
    acceleration: f64,
    deceleration: f64,
}

impl Run {
    // Nowhere to go, or nothing to go by.
    #[tactic(auto, unfolding(crate::specs::Ramps::no_run))]
    fn no_run(self) -> bool
        ensures { result ≡ no_run self.distance self.top self.acceleration self.deceleration }
    {
        self.distance <= 0.0
            || self.top <= 0.0
            || self.acceleration <= 0.0
            || self.deceleration <= 0.0
    }

    // The distance of braking from a speed to rest.
    #[tactic(auto, unfolding(crate::specs::Ramps::brake_distance))]
    fn brake_distance(self, speed: f64) -> f64
        ensures { result ≡ brake_distance speed self.deceleration }
    {
        speed * speed / (2.0 * self.deceleration)
    }

    // Braking all the way; the mul_add rounds once.
    #[tactic(auto, unfolding(crate::specs::Ramps::brake_time))]
    fn brake_time(self) -> f64
        ensures { result ≡ brake_time self.distance self.start self.deceleration }
    {
        let left = multiply_add::mul_add(
            2.0 * self.distance,
            -self.deceleration,
            self.start * self.start,
        );
        (self.start - square_root::sqrt(fp::max_zero(left))) / self.deceleration
    }

    // The speed at the top of a run without a cruise; the fma rounds twice.
    #[tactic(auto, unfolding(crate::specs::Ramps::peak_speed))]
    fn peak_speed(self) -> f64
        ensures { result ≡ peak_speed self.distance self.start self.acceleration self.deceleration }
    {
        let product = 2.0 * self.distance * self.acceleration * self.deceleration;
        let sum = fp::fma(self.deceleration, self.start * self.start, product);
        square_root::sqrt(sum / (self.acceleration + self.deceleration))
    }

    // Up to the peak and down to rest.
    #[tactic(auto, unfolding(crate::specs::Ramps::triangle_time))]
    fn triangle_time(self, peak: f64) -> f64
        ensures { result ≡ triangle_time peak self.start self.acceleration self.deceleration }
    {
        (peak - self.start) / self.acceleration + peak / self.deceleration
    }

    // The distance of the ramp up to top speed; the fma rounds twice.
    #[tactic(auto, unfolding(crate::specs::Ramps::ramp_distance))]
    fn ramp_distance(self) -> f64
        ensures { result ≡ ramp_distance self.start self.top self.acceleration }
    {
        fp::fma(self.top, self.top, -(self.start * self.start)) / (2.0 * self.acceleration)
    }

    // What is left between the ramps.
    #[tactic(auto, unfolding(crate::specs::Ramps::cruise_distance))]
    fn cruise_distance(self) -> f64
        ensures { result ≡ cruise_distance self.distance self.start self.top self.acceleration self.deceleration }
    {
        self.distance - self.ramp_distance() - self.brake_distance(self.top)
    }

    // Up to top speed, a cruise, and down to rest.
    #[tactic(auto, unfolding(crate::specs::Ramps::trapezoid_time))]
    fn trapezoid_time(self) -> f64
        ensures { result ≡ trapezoid_time self.distance self.start self.top self.acceleration self.deceleration }
    {
        (self.top - self.start) / self.acceleration
            + self.cruise_distance() / self.top
            + self.top / self.deceleration
    }

    // From a speed of 0 to top.
    #[tactic(auto, unfolding(crate::specs::Ramps::run_time))]
    fn run_time(self) -> f64
        ensures { result ≡ run_time self.distance self.start self.top self.acceleration self.deceleration }
    {
        if self.brake_distance(self.start) >= self.distance {
            return self.brake_time();
        }
        let peak = self.peak_speed();
        if peak <= self.top {
            self.triangle_time(peak)
        } else {
            self.trapezoid_time()
        }
    }

    // travel_time of eta.rs.
    #[tactic(auto, unfolding(crate::specs::Ramps::seconds))]
    fn seconds(self) -> f64
        ensures { result ≡ seconds self.distance self.start self.top self.acceleration self.deceleration }
    {
        if self.no_run() {
            0.0
        } else {
            let start = clamp_speed(self.start, self.top);
            Run { start, ..self }.run_time()
        }
    }

    #[tactic(auto, unfolding(crate::specs::Domain::in_domain))]
    fn in_domain(self) -> bool
        ensures { result ≡ in_domain self.distance self.start self.top self.acceleration self.deceleration }
    {
        is_sized(self.distance)
            && is_sized(self.start)
            && is_rate(self.top)
            && is_rate(self.acceleration)
            && is_rate(self.deceleration)
    }
}

// speed.clamp(0.0, top), which asks for a top of at least 0.
#[tactic(auto, unfolding(crate::specs::Ramps::clamp_speed))]
fn clamp_speed(speed: f64, top: f64) -> f64
    ensures { result ≡ clamp_speed speed top }
{
    if speed < 0.0 {
        fp::lesser(0.0, top)
    } else {
        fp::lesser(speed, top)
    }
}

// At most 1,000,000 in size.
#[tactic(auto, unfolding(crate::specs::Domain::is_sized))]
fn is_sized(x: f64) -> bool
    ensures { result ≡ is_sized x }
{
    -1_000_000.0 <= x && x <= 1_000_000.0
}

// So, and at least 1/1,024 or not above zero.
#[tactic(auto, unfolding(crate::specs::Domain::is_rate))]
fn is_rate(x: f64) -> bool
    ensures { result ≡ is_rate x }
{
    is_sized(x) && (0.0009765625 <= x || x <= 0.0)
}

// The seconds of a run over a distance, from a starting speed, by a top speed and the rates of acceleration and deceleration; None is refusal 21. The
// five stay parameters, as the interface for C and the pages have them.
#[tactic(auto, unfolding(crate::specs::Answers::travel_time_of))]
pub fn travel_time(
    distance: f64,
    start: f64,
    top: f64,
    acceleration: f64,
    deceleration: f64,
) -> Option<f64>
    ensures { result ≡ travel_time_of distance start top acceleration deceleration }
{
    let run = Run {
        distance,
        start,
        top,
        acceleration,
        deceleration,
    };
    if run.in_domain() {
        Some(run.seconds())
    } else {
        None
    }
}
