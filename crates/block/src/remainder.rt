// The remainder by 65,535 with no division: 65,535 shifted is taken off, the largest shift first, where the number is not less.
ghost use Rattle.std.specs.Prelude.{◌-◌, ◌*◌, ◌%◌, ◌^◌, ◌≤◌, ◌<◌, ◌≡◌, ltb};
ghost use Rattle.octets.specs.Pick.{pick};

const MODULUS: u32 = 65535;

// A number less another, where it is not less than that; the compiler makes a move of it and no branch.
fn taken(x: u32, y: u32) -> u32
    ensures { result ≡ pick (ltb x y) x (x - y) }
{
    if x < y {
        return x;
    }
    x - y
}

// The remainder of a number below 65,535 * 2 ^ shifts, in as many steps as there are shifts; 17 of them are enough for any number.
pub fn remainder(x: u32, shifts: u32) -> u32
    requires { (shifts ≤ 17) × (x < 65535 * 2 ^ shifts) }
    ensures { result ≡ x % 65535 }
{
    let mut rest = x;
    for shift in (0..shifts).rev() {
        rest = taken(rest, MODULUS << shift);
    }
    rest
}
