// Section 3.1 and 3.2 of RFC 7693: the mixing function G and the compression function F.
//
// The sixteen words of the work vector are a struct by value; the compiler chooses where to keep
// them. A round is two half rounds, and each is four Gs, none of which waits for another, while a
// step of G waits for the step before it. One G is written by itself, and the other three step by
// step together. For x86-64 the compiler makes code of this order in which, in most half rounds, a
// step of another G is made while one waits. docs/DECISIONS.md says how the order was found.
ghost use Rattle.std.specs.Prelude.{◌≡◌, ◌+◌, ◌<◌, [], ◌∷◌, bit_xor};
ghost use Rattle.blake2s.specs.Rfc7693.{plus, rotr, G, columns, diagonals, inverting, work_vector, folded, F};
ghost use Rattle.blake2s.specs.Words.{quad, firsts, seconds, thirds, work, block, state};

use std::ops::BitXor;

// The eight words of the state between blocks.
#[derive(Clone, Copy)]
pub struct State {
    pub h0: u32,
    pub h1: u32,
    pub h2: u32,
    pub h3: u32,
    pub h4: u32,
    pub h5: u32,
    pub h6: u32,
    pub h7: u32,
}

// The sixteen words of a block of the message.
#[derive(Clone, Copy)]
pub struct Block {
    pub m0: u32,
    pub m1: u32,
    pub m2: u32,
    pub m3: u32,
    pub m4: u32,
    pub m5: u32,
    pub m6: u32,
    pub m7: u32,
    pub m8: u32,
    pub m9: u32,
    pub m10: u32,
    pub m11: u32,
    pub m12: u32,
    pub m13: u32,
    pub m14: u32,
    pub m15: u32,
}

// The sixteen words of the work vector.
#[derive(Clone, Copy)]
pub struct Work {
    pub v0: u32,
    pub v1: u32,
    pub v2: u32,
    pub v3: u32,
    pub v4: u32,
    pub v5: u32,
    pub v6: u32,
    pub v7: u32,
    pub v8: u32,
    pub v9: u32,
    pub v10: u32,
    pub v11: u32,
    pub v12: u32,
    pub v13: u32,
    pub v14: u32,
    pub v15: u32,
}

// Four words of the work vector.
#[derive(Clone, Copy)]
pub struct Quad {
    pub a: u32,
    pub b: u32,
    pub c: u32,
    pub d: u32,
}

// A word of each of three Gs.
#[derive(Clone, Copy)]
pub struct Triple {
    pub x: u32,
    pub y: u32,
    pub z: u32,
}

// The four words that each of three Gs changes.
#[derive(Clone, Copy)]
pub struct Triples {
    pub a: Triple,
    pub b: Triple,
    pub c: Triple,
    pub d: Triple,
}

// The eight steps of the mixing function G, on a word each or on the words of three Gs each.
macro_rules! steps_of_g {
    ($words:ident, $a:ident, $b:ident, $c:ident, $d:ident, $x:ident, $y:ident) => {{
        let a1 = $a.wrapping_add($b).wrapping_add($x);
        let d1 = ($d ^ a1).rotate_right(16);
        let c1 = $c.wrapping_add(d1);
        let b1 = ($b ^ c1).rotate_right(12);
        let a2 = a1.wrapping_add(b1).wrapping_add($y);
        let d2 = (d1 ^ a2).rotate_right(8);
        let c2 = c1.wrapping_add(d2);
        let b2 = (b1 ^ c2).rotate_right(7);
        $words {
            a: a2,
            b: b2,
            c: c2,
            d: d2,
        }
    }};
}

// The mixing function G on the four words that it changes, and two words of the message.
fn g(a: u32, b: u32, c: u32, d: u32, x: u32, y: u32) -> Quad
    ensures { quad result ≡ G (a ∷ b ∷ c ∷ d ∷ []) 0 1 2 3 x y }
{
    steps_of_g!(Quad, a, b, c, d, x, y)
}

impl Triple {
    fn new(x: u32, y: u32, z: u32) -> Self
        ensures { (result.x ≡ x) × (result.y ≡ y) × (result.z ≡ z) }
    {
        Triple { x, y, z }
    }

    // The sums in each of the three Gs, which wrap.
    fn wrapping_add(self, other: Self) -> Self
        ensures { (result.x ≡ plus self.x other.x) × (result.y ≡ plus self.y other.y) × (result.z ≡ plus self.z other.z) }
    {
        Triple {
            x: self.x.wrapping_add(other.x),
            y: self.y.wrapping_add(other.y),
            z: self.z.wrapping_add(other.z),
        }
    }

    // The word of each of the three Gs, rotated to the right by n bits.
    fn rotate_right(self, n: u32) -> Self
        requires { (0 < n) × (n < 32) }
        ensures { (result.x ≡ rotr self.x n) × (result.y ≡ rotr self.y n) × (result.z ≡ rotr self.z n) }
    {
        Triple {
            x: self.x.rotate_right(n),
            y: self.y.rotate_right(n),
            z: self.z.rotate_right(n),
        }
    }
}

impl BitXor for Triple {
    type Output = Triple;

    ghost bitxor_gives = { λ a b r. (r.x ≡ bit_xor a.x b.x) × (r.y ≡ bit_xor a.y b.y) × (r.z ≡ bit_xor a.z b.z) };

    fn bitxor(self, other: Self) -> Self {
        Triple {
            x: self.x ^ other.x,
            y: self.y ^ other.y,
            z: self.z ^ other.z,
        }
    }
}

// The mixing function G, three times, step by step together.
fn g3(a: Triple, b: Triple, c: Triple, d: Triple, x: Triple, y: Triple) -> Triples
    ensures { (firsts result ≡ G (a.x ∷ b.x ∷ c.x ∷ d.x ∷ []) 0 1 2 3 x.x y.x) × (seconds result ≡ G (a.y ∷ b.y ∷ c.y ∷ d.y ∷ []) 0 1 2 3 x.y y.y) × (thirds result ≡ G (a.z ∷ b.z ∷ c.z ∷ d.z ∷ []) 0 1 2 3 x.z y.z) }
{
    steps_of_g!(Triples, a, b, c, d, x, y)
}

// The first half of a round: G on the four columns of v. The second is by itself, and the fourth,
// the third and the first are together.
fn columns(v: Work, x0: u32, x1: u32, x2: u32, x3: u32, x4: u32, x5: u32, x6: u32, x7: u32) -> Work
    ensures { work result ≡ columns (work v) x0 x1 x2 x3 x4 x5 x6 x7 }
{
    let q = g(v.v1, v.v5, v.v9, v.v13, x2, x3);
    let p = g3(
        Triple::new(v.v3, v.v2, v.v0),
        Triple::new(v.v7, v.v6, v.v4),
        Triple::new(v.v11, v.v10, v.v8),
        Triple::new(v.v15, v.v14, v.v12),
        Triple::new(x6, x4, x0),
        Triple::new(x7, x5, x1),
    );
    Work {
        v0: p.a.z,
        v1: q.a,
        v2: p.a.y,
        v3: p.a.x,
        v4: p.b.z,
        v5: q.b,
        v6: p.b.y,
        v7: p.b.x,
        v8: p.c.z,
        v9: q.c,
        v10: p.c.y,
        v11: p.c.x,
        v12: p.d.z,
        v13: q.d,
        v14: p.d.y,
        v15: p.d.x,
    }
}

// The second half of a round: G on the four diagonals of v. The first is by itself, and the others
// are together. As the columns of a vector with its rows turned it makes the digest slower by more
// than 2 percent.
fn diagonals(
    v: Work,
    x0: u32,
    x1: u32,
    x2: u32,
    x3: u32,
    x4: u32,
    x5: u32,
    x6: u32,
    x7: u32,
) -> Work
    ensures { work result ≡ diagonals (work v) x0 x1 x2 x3 x4 x5 x6 x7 }
{
    let q = g(v.v0, v.v5, v.v10, v.v15, x0, x1);
    let p = g3(
        Triple::new(v.v1, v.v2, v.v3),
        Triple::new(v.v6, v.v7, v.v4),
        Triple::new(v.v11, v.v8, v.v9),
        Triple::new(v.v12, v.v13, v.v14),
        Triple::new(x2, x4, x6),
        Triple::new(x3, x5, x7),
    );
    Work {
        v0: q.a,
        v1: p.a.x,
        v2: p.a.y,
        v3: p.a.z,
        v4: p.b.z,
        v5: q.b,
        v6: p.b.x,
        v7: p.b.y,
        v8: p.c.y,
        v9: p.c.z,
        v10: q.c,
        v11: p.c.x,
        v12: p.d.x,
        v13: p.d.y,
        v14: p.d.z,
        v15: q.d,
    }
}

// What the flag of the last block turns over in the work vector.
fn inverting(last: bool) -> u32
    ensures { result ≡ inverting last }
{
    if last { 0xffff_ffff } else { 0 }
}

// The work vector at the start of a compression.
fn work_vector(h: State, t: u64, last: bool) -> Work
    ensures { work result ≡ work_vector (state h) t last }
{
    let f = inverting(last);
    let lo = (t % 4294967296) as u32;
    let hi = (t / 4294967296) as u32;
    Work {
        v0: h.h0,
        v1: h.h1,
        v2: h.h2,
        v3: h.h3,
        v4: h.h4,
        v5: h.h5,
        v6: h.h6,
        v7: h.h7,
        v8: 0x6a09e667,
        v9: 0xbb67ae85,
        v10: 0x3c6ef372,
        v11: 0xa54ff53a,
        v12: 0x510e527f ^ lo,
        v13: 0x9b05688c ^ hi,
        v14: 0x1f83d9ab ^ f,
        v15: 0x5be0cd19,
    }
}

// The state after a compression.
fn folded(h: State, v: Work) -> State
    ensures { state result ≡ folded (state h) (work v) }
{
    State {
        h0: h.h0 ^ v.v0 ^ v.v8,
        h1: h.h1 ^ v.v1 ^ v.v9,
        h2: h.h2 ^ v.v2 ^ v.v10,
        h3: h.h3 ^ v.v3 ^ v.v11,
        h4: h.h4 ^ v.v4 ^ v.v12,
        h5: h.h5 ^ v.v5 ^ v.v13,
        h6: h.h6 ^ v.v6 ^ v.v14,
        h7: h.h7 ^ v.v7 ^ v.v15,
    }
}

// The compression function F: the state after the block m, of which t counts the message's bytes.
pub fn compress(h: State, m: Block, t: u64, last: bool) -> State
    ensures { state result ≡ F (state h) (block m) t last }
{
    let v = work_vector(h, t, last);
    let v = columns(v, m.m0, m.m1, m.m2, m.m3, m.m4, m.m5, m.m6, m.m7);
    let v = diagonals(v, m.m8, m.m9, m.m10, m.m11, m.m12, m.m13, m.m14, m.m15);
    let v = columns(v, m.m14, m.m10, m.m4, m.m8, m.m9, m.m15, m.m13, m.m6);
    let v = diagonals(v, m.m1, m.m12, m.m0, m.m2, m.m11, m.m7, m.m5, m.m3);
    let v = columns(v, m.m11, m.m8, m.m12, m.m0, m.m5, m.m2, m.m15, m.m13);
    let v = diagonals(v, m.m10, m.m14, m.m3, m.m6, m.m7, m.m1, m.m9, m.m4);
    let v = columns(v, m.m7, m.m9, m.m3, m.m1, m.m13, m.m12, m.m11, m.m14);
    let v = diagonals(v, m.m2, m.m6, m.m5, m.m10, m.m4, m.m0, m.m15, m.m8);
    let v = columns(v, m.m9, m.m0, m.m5, m.m7, m.m2, m.m4, m.m10, m.m15);
    let v = diagonals(v, m.m14, m.m1, m.m11, m.m12, m.m6, m.m8, m.m3, m.m13);
    let v = columns(v, m.m2, m.m12, m.m6, m.m10, m.m0, m.m11, m.m8, m.m3);
    let v = diagonals(v, m.m4, m.m13, m.m7, m.m5, m.m15, m.m14, m.m1, m.m9);
    let v = columns(v, m.m12, m.m5, m.m1, m.m15, m.m14, m.m13, m.m4, m.m10);
    let v = diagonals(v, m.m0, m.m7, m.m6, m.m3, m.m9, m.m2, m.m8, m.m11);
    let v = columns(v, m.m13, m.m11, m.m7, m.m14, m.m12, m.m1, m.m3, m.m9);
    let v = diagonals(v, m.m5, m.m0, m.m15, m.m4, m.m8, m.m6, m.m2, m.m10);
    let v = columns(v, m.m6, m.m15, m.m14, m.m9, m.m11, m.m3, m.m0, m.m8);
    let v = diagonals(v, m.m12, m.m2, m.m13, m.m7, m.m1, m.m4, m.m10, m.m5);
    let v = columns(v, m.m10, m.m2, m.m8, m.m4, m.m7, m.m6, m.m1, m.m5);
    let v = diagonals(v, m.m15, m.m11, m.m9, m.m14, m.m3, m.m12, m.m13, m.m0);
    folded(h, v)
}
