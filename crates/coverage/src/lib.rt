// Which stops are covered: is_covered of assignment.rs, over columns of the car, line and waiting records.
#![tactic(auto)]

ghost use Rattle.std.specs.Prelude.{◌≡◌, cond, not, ◌||◌, eqb, ◌≤◌, length};
ghost use Rattle.fp.specs.Num.{plus};
ghost use Rattle.coverage.specs.Coverage.{line_room, capacity_by, weight_by, line_served_by, lines_served, covered_by};

// The cars and the lines, in record order. Of a car its target, 0 where it serves none, its line and its room; of a line its id. Columns, since a
// target is compared with several cars' at a time.
#[derive(Clone, Copy)]
pub struct Serving<'a> {
    pub targets: &'a [u32],
    pub lines: &'a [u32],
    pub rooms: &'a [f64],
    pub line_ids: &'a [u32],
    ghost cars: { (length targets.now ≤ length lines.now) × (length targets.now ≤ length rooms.now) },
}

// Those who wait, in record order: the stop of each, the line that it requires, 0 for none, and its weight.
#[derive(Clone, Copy)]
pub struct Waiting<'a> {
    pub stops: &'a [u32],
    pub required: &'a [u32],
    pub weights: &'a [f64],
    ghost riders: { (length stops.now ≤ length required.now) × (length stops.now ≤ length weights.now) },
}

// a with x added where b holds.
fn add_if(b: bool, a: f64, x: f64) -> f64
    ensures { result ≡ cond b (plus a x) a }
{
    if b { a + x } else { a }
}

// The loops go by index where each step reads two or three columns.
impl Serving<'_> {
    // a, and the room of each car of the line that serves the stop.
    fn line_room(&self, id: u32, line: u32, a: f64) -> f64
        ensures { result ≡ line_room self.now.targets.now self.now.lines.now self.now.rooms.now (length self.now.targets.now) id a line }
    {
        let mut b = a;
        for i in 0..self.targets.len() {
            b = add_if(
                (self.lines[i] == line) & (self.targets[i] == id),
                b,
                self.rooms[i],
            );
        }
        b
    }

    // The room of the cars that serve the stop, line by line.
    fn capacity_at(&self, id: u32) -> f64
        ensures { result ≡ capacity_by self.now.targets.now self.now.lines.now self.now.rooms.now (length self.now.targets.now)
            self.now.line_ids.now (length self.now.line_ids.now) id }
    {
        let mut a: f64 = 0.0;
        for &line in self.line_ids {
            a = self.line_room(id, line, a);
        }
        a
    }

    // Whether no line is required, or that of a car that serves the stop.
    fn line_served(&self, id: u32, line: u32) -> bool
        ensures { result ≡ line_served_by self.now.targets.now self.now.lines.now (length self.now.targets.now) id line }
    {
        if line == 0 {
            return true;
        }
        for i in 0..self.targets.len() {
            if (self.targets[i] == id) & (self.lines[i] == line) {
                return true;
            }
        }
        false
    }

    // Whether one who waits at a stop is at another, or requires no line, or that of a car that serves this one.
    fn waiter_served(&self, at: u32, line: u32, id: u32) -> bool
        ensures { result ≡ (not (eqb at id) || line_served_by self.now.targets.now self.now.lines.now (length self.now.targets.now) id line) }
    {
        at != id || self.line_served(id, line)
    }
}

impl Waiting<'_> {
    // The weights of those who wait at the stop.
    fn weight_at(&self, id: u32) -> f64
        ensures { result ≡ weight_by self.now.stops.now self.now.weights.now (length self.now.stops.now) id }
    {
        let mut a: f64 = 0.0;
        for w in 0..self.stops.len() {
            a = add_if(self.stops[w] == id, a, self.weights[w]);
        }
        a
    }

    // Whether each who waits at the stop requires no line, or that of a car that serves it.
    fn lines_served(&self, cars: &Serving<'_>, id: u32) -> bool
        ensures { result ≡ lines_served cars.now.targets.now cars.now.lines.now (length cars.now.targets.now)
            self.now.stops.now self.now.required.now (length self.now.stops.now) id }
    {
        for w in 0..self.stops.len() {
            if !cars.waiter_served(self.stops[w], self.required[w], id) {
                return false;
            }
        }
        true
    }
}

// Whether the stop with this id is covered.
pub fn is_covered(cars: &Serving<'_>, waiting: &Waiting<'_>, id: u32) -> bool
    ensures { result ≡ covered_by cars.now.targets.now cars.now.lines.now cars.now.rooms.now (length cars.now.targets.now)
        cars.now.line_ids.now (length cars.now.line_ids.now) waiting.now.stops.now waiting.now.required.now waiting.now.weights.now
        (length waiting.now.stops.now) id }
{
    fields::contains(cars.targets, cars.targets.len(), id)
        && waiting.lines_served(cars, id)
        && waiting.weight_at(id) <= cars.capacity_at(id)
}
