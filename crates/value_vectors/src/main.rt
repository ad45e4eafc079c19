// Compares the port's square root and ln with vectors from outside, bit by bit.
//
// Standard input has a line of 53 bytes for each: `r` for a square root or `l` for ln, then x, the right result and, for
// ln, a library's result, each as 16 hexadecimal digits in capitals. `judge/src/bin/vectors.rs` makes them:
// `cargo run --release -p judge --bin vectors > crates/value_vectors/stdin`.
#![tactic(auto)]

ghost use Rattle.std.specs.Prelude.{◌≡◌, ◌<◌, length};

const STDIN: i32 = 0;

const STDOUT: i32 = 1;

// The value of a hexadecimal digit.
fn digit(b: u8) -> u64
    ensures { result < 16 }
{
    let value = if b <= b'9' { b % 16 } else { (b % 16 + 9) % 16 };
    u64::from(value)
}

// The number that digits write, of which the last 16 count.
fn word(digits: &[u8]) -> u64 {
    let mut w: u64 = 0;
    for b in digits {
        w = w % 0x1000_0000_0000_0000 * 16 + digit(*b);
    }
    w
}

// What becomes of a line.
#[derive(Clone, Copy)]
enum Outcome {
    RootEqual,
    RootDiffers,
    LogarithmEqual,
    LogarithmDiffers,
    // more than one last bit from the library's
    LogarithmFar,
    NoVector,
}

impl Outcome {
    // Its place among the counts.
    fn place(self) -> usize
        ensures { result < 6 }
    {
        match self {
            Outcome::RootEqual => 0,
            Outcome::RootDiffers => 1,
            Outcome::LogarithmEqual => 2,
            Outcome::LogarithmDiffers => 3,
            Outcome::LogarithmFar => 4,
            Outcome::NoVector => 5,
        }
    }
}

fn compare(line: &[u8]) -> Outcome
    requires { length line.now ≡ 53 }
{
    let x = value::from_bits(word(&line[2..18]));
    let right = word(&line[19..35]);
    let library = word(&line[36..52]);
    match line[0] {
        b'r' => {
            if value::to_bits(value::sqrt(x)) == right {
                Outcome::RootEqual
            } else {
                Outcome::RootDiffers
            }
        }
        b'l' => {
            let got = value::to_bits(value::ln(x));
            if got != right {
                Outcome::LogarithmDiffers
            } else if got.abs_diff(library) <= 1 {
                Outcome::LogarithmEqual
            } else {
                Outcome::LogarithmFar
            }
        }
        _ => Outcome::NoVector,
    }
}

// How many lines have each outcome, in the order in which they are printed.
fn tally(text: &[u8]) -> [usize; 6] {
    let mut counts = [0usize; 6];
    for line in text.chunks_exact(53) {
        let place = compare(line).place();
        counts[place] = counts[place].wrapping_add(1);
    }
    counts
}

fn say(text: &[u8], n: usize) {
    io::write_all(STDOUT, text);
    io::print_decimal(STDOUT, n as u64);
    io::write_all(STDOUT, b"\n");
}

// Printed by `io`, by whose functions it is read: `println!` would assume two more functions of C.
fn main() {
    let mut space = io::large_buffer();
    let n = io::read_full(STDIN, &mut space);
    let text = &space[..n];
    let counts = tally(text);
    say(b"square roots equal ", counts[0]);
    say(b"square roots that differ ", counts[1]);
    say(b"logarithms equal ", counts[2]);
    say(b"logarithms that differ ", counts[3]);
    say(
        b"logarithms more than one last bit from the library's ",
        counts[4],
    );
    say(b"lines that are no vector ", counts[5]);
    say(b"bytes left over ", n % 53);
}
