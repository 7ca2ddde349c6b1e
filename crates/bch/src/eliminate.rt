// The polynomials that meet the equations of the syndromes, by elimination.
ghost use Rattle.std.specs.Prelude.{◌≡◌, ◌+◌, ◌-◌, ◌<◌, ◌≤◌, [], bit_xor, fold, nat_eq, not, position, length, take, drop, slice_index_or};
ghost use Rattle.std.specs.List.{zip};
ghost use Rattle.arrayvec.specs.ArrayVec.{array_vec_len};
ghost use Rattle.gf2.specs.Fields.{product};
ghost use Rattle.bch.specs.Elimination.{against as sum_against, add_scaled, cleared, met_one, met_all, sequence, unit_rows};
ghost use Rattle.bch.specs.Decoding.{inverse_or_0};

use arrayvec::ArrayVec;
use gf2::field::Field;
use std::array;

// The coefficients of a polynomial, the lowest first. A code corrects at most 5 bits, so six serve, and there is no heap.
pub(crate) type Polynomial = [u16; 6];

// A sequence of elements of a field: its members 0 to 10, which are as many as equations over six coefficients reach.
#[derive(Clone, Copy)]
pub(crate) struct Sequence {
    pub field: Field,
    pub members: [u16; 11],
}

// a p + q
fn combined(field: Field, a: u16, p: &Polynomial, q: &Polynomial) -> Polynomial
    ensures scaled_sum { result ≡ add_scaled (product field) a p.now q.now }
{
    array::from_fn(|k| field.product(a, p[k]) ^ q[k])
}

// The sum of the products of the first elements, the second and so on.
fn dot(field: Field, a: &[u16], b: &[u16]) -> u16
    ensures sum_of_products { result ≡ fold (λ sum x. bit_xor sum (product field x.0 x.1)) 0 (zip a.now b.now) }
{
    a.iter()
        .zip(b)
        .fold(0, |sum, (x, y)| sum ^ field.product(*x, *y))
}

// The equation with that number: a polynomial meets it if its coefficients against the members from i on give 0.
#[derive(Clone, Copy)]
struct Equation {
    sequence: Sequence,
    i: usize,
    ghost inside: { i < 6 },
}

impl Equation {
    // The sum of the coefficients times the members from i on.
    fn against(&self, poly: &Polynomial) -> u16
        ensures sum_of_products { result ≡ sum_against (product self.now.sequence.field) poly.now (sequence self.now.sequence.members) self.now.i }
    {
        dot(self.sequence.field, poly, &self.sequence.members[self.i..])
    }

    // Where the first polynomial is that fails it.
    fn first_failing(&self, polys: &[Polynomial]) -> Option<usize>
        ensures first_that_is_not_0 { result ≡ position (λ p. not (nat_eq (sum_against (product self.now.sequence.field) p (sequence self.now.sequence.members) self.now.i) 0)) polys.now }
    {
        polys.iter().position(|poly| self.against(poly) != 0)
    }

    // Adds the first polynomial, which fails it, to each of those behind it so that they meet it, and moves these up by a place. The vector's `remove`
    // would move them by memmove, which a caller in C may lack.
    fn clear(&self, polys: &mut [Polynomial])
        requires there_is_a_first { 0 < length polys.old }
        ensures others_meet_it { take (length polys.old - 1) polys.new ≡ cleared (product self.now.sequence.field) (inverse_or_0 self.now.sequence.field) (sequence self.now.sequence.members) self.now.i (slice_index_or polys.old 0 []) (drop 1 polys.old) }
        ensures as_many { length polys.new ≡ length polys.old }
    {
        let field = self.sequence.field;
        let first = polys[0];
        let scale = field.inverse(self.against(&first)).unwrap_or(0);
        // The index names two places, since each moves to the one in front of its own.
        for k in 0..polys.len() - 1 {
            let next = polys[k + 1];
            let a = field.product(self.against(&next), scale);
            polys[k] = combined(field, a, &first, &next);
        }
    }

    // The first polynomial that fails it is taken out, and clears those behind it.
    fn meet(&self, polys: &mut ArrayVec<Polynomial, 6>)
        ensures those_that_meet_it { polys.new.items ≡ met_one (product self.now.sequence.field) (inverse_or_0 self.now.sequence.field) (sequence self.now.sequence.members) self.now.i polys.old.items }
        ensures one_fewer_at_most { array_vec_len polys.old ≤ array_vec_len polys.new + 1 }
    {
        if let Some(j) = self.first_failing(polys) {
            self.clear(&mut polys[j..]);
            polys.pop();
        }
    }
}

impl Sequence {
    // What is left of 1, z, .., z^t after the equations 1 to t.
    pub(crate) fn solve(&self, t: usize) -> Survivors
        requires inside { t < 6 }
        ensures meet_all_equations { result.polys.items ≡ met_all (product self.now.field) (inverse_or_0 self.now.field) (sequence self.now.members) t 1 (take (t + 1) unit_rows) }
    {
        let mut polys = ArrayVec::from(UNITS);
        polys.truncate(t + 1);
        // Each equation changes the polynomials, so this is no chain.
        for i in 1..t + 1 {
            let equation = Equation { sequence: *self, i };
            equation.meet(&mut polys);
        }
        Survivors { polys }
    }
}

// 1, z and so on to z^5.
const UNITS: [Polynomial; 6] = [
    [1, 0, 0, 0, 0, 0],
    [0, 1, 0, 0, 0, 0],
    [0, 0, 1, 0, 0, 0],
    [0, 0, 0, 1, 0, 0],
    [0, 0, 0, 0, 1, 0],
    [0, 0, 0, 0, 0, 1],
];

// The polynomials that the elimination leaves. There is one more at the start than equations, so one at least is left.
#[derive(Drop)]
pub(crate) struct Survivors {
    pub polys: ArrayVec<Polynomial, 6>,
    ghost some: { 1 ≤ array_vec_len polys },
}
