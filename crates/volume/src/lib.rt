// Points in whole units, and the product by which a side is told. Nothing is rounded and nothing wraps.
#![tactic(auto)]

ghost use Rattle.std.specs.Prelude.{◌≡◌, ◌+◌, ◌*◌, ◌≤◌, ◌<◌, length, ◌+ℤ◌, ◌-ℤ◌, ◌*ℤ◌};
ghost use Rattle.rules.specs.Points as R;
ghost use Rattle.rules.specs.Job.{most_ids};
ghost use Rattle.volume.specs.Bound.{Within, Exact, read_most, grid_most, apart_most, minor_most, product_most};
ghost use Rattle.volume.specs.Meant.{meant, Near};

#[derive(Clone, Copy, PartialEq)]
pub struct Point {
    pub x: i64,
    pub y: i64,
    pub z: i64,
}

const ORIGIN: Point = Point { x: 0, y: 0, z: 0 };

// ---- points in bytes

fn coordinate_at(bytes: &[u8], place: usize) -> i64
    requires { place + 2 ≤ length bytes.now }
    ensures { Exact read_most result (R.coordinate bytes.now place) }
{
    i64::from(i16::from_le_bytes([bytes[place], bytes[place + 1]]))
}

// The point of id v.
pub fn point_at(bytes: &[u8], v: usize) -> Point
    requires { (v < most_ids) × (6 * v + 6 ≤ length bytes.now) }
    ensures { meant result ≡ R.point_in bytes.now v }
{
    let at = 6 * v;
    Point {
        x: coordinate_at(bytes, at),
        y: coordinate_at(bytes, at + 2),
        z: coordinate_at(bytes, at + 4),
    }
}

// ---- the range of a coordinate, and signs

// `stl` asks the same of an i16, and does not see this crate.
fn in_range(z: i64) -> bool
    ensures { result ≡ R.in_range z }
{
    (-1023..=1023).contains(&z)
}

pub fn on_grid(p: Point) -> bool
    ensures { result ≡ R.on_grid (meant p) }
{
    in_range(p.x) & in_range(p.y) & in_range(p.z)
}

pub fn is_zero(z: i64) -> bool
    ensures { result ≡ R.is_zero z }
{
    z == 0
}

// By `signum` this would need a test for zero besides, and be no plainer.
pub fn same_sign(m: i64, n: i64) -> bool
    ensures { result ≡ R.same_sign m n }
{
    ((m < 0) & (n < 0)) | ((0 < m) & (0 < n))
}

// Three zeros.
pub fn at_origin(p: Point) -> bool
    ensures { result ≡ R.at_origin (meant p) }
{
    p == ORIGIN
}

// ---- the product. Numbers come first, and carry the ranges; points then only call these.

fn apart(b: i64, a: i64) -> i64
    requires { Within grid_most b × Within grid_most a }
    ensures { Exact apart_most result (b -ℤ a) }
{
    b - a
}

fn minor(a: i64, b: i64, c: i64, d: i64) -> i64
    requires { Within apart_most a × Within apart_most b × Within apart_most c × Within apart_most d }
    ensures { Exact minor_most result (a *ℤ d -ℤ b *ℤ c) }
{
    a * d - b * c
}

// Three minors by three coordinates.
fn dot(p: i64, q: i64, r: i64, x: i64, y: i64, z: i64) -> i64
    requires { (Within minor_most p × Within minor_most q × Within minor_most r) × (Within apart_most x × Within apart_most y × Within apart_most z) }
    ensures { Exact product_most result (p *ℤ x +ℤ q *ℤ y +ℤ r *ℤ z) }
{
    p * x + q * y + r * z
}

// b - a
fn from(b: Point, a: Point) -> Point
    requires { Near grid_most b × Near grid_most a }
    ensures is { meant result ≡ R.from (meant b) (meant a) }
    ensures near { Near apart_most result }
{
    Point {
        x: apart(b.x, a.x),
        y: apart(b.y, a.y),
        z: apart(b.z, a.z),
    }
}

// u x v . w
fn triple(u: Point, v: Point, w: Point) -> i64
    requires { Near apart_most u × Near apart_most v × Near apart_most w }
    ensures { Exact product_most result (R.triple (meant u) (meant v) (meant w)) }
{
    let p = minor(u.y, u.z, v.y, v.z);
    let q = minor(u.z, u.x, v.z, v.x);
    let r = minor(u.x, u.y, v.x, v.y);
    dot(p, q, r, w.x, w.y, w.z)
}

// (b - a) x (c - a) . (d - a)
pub fn volume(a: Point, b: Point, c: Point, d: Point) -> i64
    requires { Near grid_most a × Near grid_most b × Near grid_most c × Near grid_most d }
    ensures { Exact product_most result (R.volume (meant a) (meant b) (meant c) (meant d)) }
{
    triple(from(b, a), from(c, a), from(d, a))
}
