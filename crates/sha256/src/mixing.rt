// Sections 4.1.2 and 6.2.2 of FIPS 180-4: the functions on words, the message schedule and the rounds.
//
// Sixteen rounds are written out, and run four times with their row of constants and their words of
// the schedule. These follow from the sixteen before them, so that no more than sixteen are kept.
// Rounds and words are written out, on structs of words: loops over arrays of them are a tenth slower.
ghost use Rattle.std.specs.Prelude.{◌≡◌, ◌+◌, ◌/◌, ◌%◌, ◌^◌, ◌<◌, [], ◌∷◌, ◌++◌, bit_xor};
ghost use Rattle.sha256.specs.Fips180.{rotr, Ch, Maj, Sigma0, Sigma1, sigma0, sigma1, K, schedule, round, rounds, added, compressed};
ghost use Rattle.sha256.specs.Words.{state, quad, block, sixteen, two, sixteen_at};

// The eight words of the hash value, and the working variables, under the standard's names.
#[derive(Clone, Copy)]
pub struct State {
    pub a: u32,
    pub b: u32,
    pub c: u32,
    pub d: u32,
    pub e: u32,
    pub f: u32,
    pub g: u32,
    pub h: u32,
}

// Four words of a block or of the schedule.
#[derive(Clone, Copy)]
pub struct Quad {
    pub a: u32,
    pub b: u32,
    pub c: u32,
    pub d: u32,
}

// The sixteen words of a block, or sixteen words of the schedule.
#[derive(Clone, Copy)]
pub struct Block {
    pub q0: Quad,
    pub q1: Quad,
    pub q2: Quad,
    pub q3: Quad,
}

// The constants of the rounds: a row for each sixteen rounds.
static CONSTANTS: [[u32; 16]; 4] = [
    [
        0x428a2f98, 0x71374491, 0xb5c0fbcf, 0xe9b5dba5, 0x3956c25b, 0x59f111f1, 0x923f82a4,
        0xab1c5ed5, 0xd807aa98, 0x12835b01, 0x243185be, 0x550c7dc3, 0x72be5d74, 0x80deb1fe,
        0x9bdc06a7, 0xc19bf174,
    ],
    [
        0xe49b69c1, 0xefbe4786, 0x0fc19dc6, 0x240ca1cc, 0x2de92c6f, 0x4a7484aa, 0x5cb0a9dc,
        0x76f988da, 0x983e5152, 0xa831c66d, 0xb00327c8, 0xbf597fc7, 0xc6e00bf3, 0xd5a79147,
        0x06ca6351, 0x14292967,
    ],
    [
        0x27b70a85, 0x2e1b2138, 0x4d2c6dfc, 0x53380d13, 0x650a7354, 0x766a0abb, 0x81c2c92e,
        0x92722c85, 0xa2bfe8a1, 0xa81a664b, 0xc24b8b70, 0xc76c51a3, 0xd192e819, 0xd6990624,
        0xf40e3585, 0x106aa070,
    ],
    [
        0x19a4c116, 0x1e376c08, 0x2748774c, 0x34b0bcb5, 0x391c0cb3, 0x4ed8aa4a, 0x5b9cca4f,
        0x682e6ff3, 0x748f82ee, 0x78a5636f, 0x84c87814, 0x8cc70208, 0x90befffa, 0xa4506ceb,
        0xbef9a3f7, 0xc67178f2,
    ],
];

// The bits of y where those of x are set, and of z elsewhere: in two operations fewer than the
// standard's form.
#[tactic(auto, using(crate::proofs::Bits::ch_is))]
fn ch(x: u32, y: u32, z: u32) -> u32
    ensures { result ≡ Ch x y z }
{
    z ^ (x & (y ^ z))
}

// Each bit as most of the three have it. In the next round y ^ z is what x ^ y is in this one, and
// the compiler makes it once.
#[tactic(auto, using(crate::proofs::Bits::maj_is))]
fn maj(x: u32, y: u32, z: u32) -> u32
    ensures { result ≡ Maj x y z }
{
    y ^ ((x ^ y) & (y ^ z))
}

// Σ0 and Σ1 of the standard, which differ in the bits that they rotate by.
#[tactic(auto, using(crate::proofs::Bits::rotated))]
fn big_sigma(x: u32, i: u32, j: u32, k: u32) -> u32
    requires { (0 < i) × (i < 32) × (0 < j) × (j < 32) × (0 < k) × (k < 32) }
    ensures { result ≡ bit_xor (bit_xor (rotr i x) (rotr j x)) (rotr k x) }
{
    x.rotate_right(i) ^ x.rotate_right(j) ^ x.rotate_right(k)
}

// σ0 and σ1, whose last part is shifted and not rotated.
#[tactic(auto, using(crate::proofs::Bits::rotated))]
fn small_sigma(x: u32, i: u32, j: u32, k: u32) -> u32
    requires { (0 < i) × (i < 32) × (0 < j) × (j < 32) × (k < 32) }
    ensures { result ≡ bit_xor (bit_xor (rotr i x) (rotr j x)) (x / 2 ^ k) }
{
    x.rotate_right(i) ^ x.rotate_right(j) ^ (x >> k)
}

// The sum T1 of a round.
#[tactic(auto, using(crate::proofs::Bits::sum_of_round), unfolding(crate::specs::Fips180::Sigma1))]
fn first_sum(v: State, k: u32, w: u32) -> u32
    ensures { result ≡ (v.h + Sigma1 v.e + Ch v.e v.f v.g + k + w) % 2 ^ 32 }
{
    let kept = v.h.wrapping_add(k.wrapping_add(w));
    let chosen = kept.wrapping_add(ch(v.e, v.f, v.g));
    chosen.wrapping_add(big_sigma(v.e, 6, 11, 25))
}

// The sum T2 of a round.
#[tactic(auto, unfolding(crate::specs::Fips180::Sigma0))]
fn second_sum(v: State) -> u32
    ensures { result ≡ (Sigma0 v.a + Maj v.a v.b v.c) % 2 ^ 32 }
{
    big_sigma(v.a, 2, 13, 22).wrapping_add(maj(v.a, v.b, v.c))
}

// One round, with its constant and its word of the schedule.
#[tactic(auto, unfolding(crate::specs::Fips180::round))]
fn round(v: State, k: u32, w: u32) -> State
    ensures { state result ≡ round (state v) k w }
{
    let t1 = first_sum(v, k, w);
    let t2 = second_sum(v);
    State {
        a: t1.wrapping_add(t2),
        b: v.a,
        c: v.b,
        d: v.c,
        e: v.d.wrapping_add(t1),
        f: v.e,
        g: v.f,
        h: v.g,
    }
}

// Two of sixteen rounds, from the one at t on.
#[tactic(auto, unfolding(crate::specs::Fips180::rounds))]
fn two_rounds(k: &[u32; 16], v: State, w0: u32, w1: u32, t: usize) -> State
    requires { t + 1 < 16 }
    ensures { state result ≡ rounds (state v) (two k.now t) (w0 ∷ w1 ∷ []) }
{
    let v = round(v, k[t], w0);
    round(v, k[t + 1], w1)
}

// The word of the schedule that follows from the words 16, 15, 7 and 2 places before it.
#[tactic(auto, using(crate::proofs::Bits::sum_of_four), unfolding(crate::specs::Fips180::sigma0, crate::specs::Fips180::sigma1))]
fn next_word(w16: u32, w15: u32, w7: u32, w2: u32) -> u32
    ensures { result ≡ (sigma1 w2 + w7 + sigma0 w15 + w16) % 2 ^ 32 }
{
    small_sigma(w2, 17, 19, 10)
        .wrapping_add(w7)
        .wrapping_add(small_sigma(w15, 7, 18, 3))
        .wrapping_add(w16)
}

// The four words of the schedule that follow sixteen.
#[tactic(auto, unfolding(crate::specs::Fips180::schedule, crate::specs::Fips180::scheduled_word))]
fn next_four(w0: Quad, w1: Quad, w2: Quad, w3: Quad) -> Quad
    ensures { schedule (sixteen w0 w1 w2 w3) 4 ≡ sixteen w0 w1 w2 w3 ++ quad result }
{
    let a = next_word(w0.a, w0.b, w2.b, w3.c);
    let b = next_word(w0.b, w0.c, w2.c, w3.d);
    let c = next_word(w0.c, w0.d, w2.d, a);
    let d = next_word(w0.d, w1.a, w3.a, b);
    Quad { a, b, c, d }
}

// The sixteen words of the schedule that follow w.
fn next_words(w: Block) -> Block
    ensures { schedule (block w) 16 ≡ block w ++ block result }
{
    let q0 = next_four(w.q0, w.q1, w.q2, w.q3);
    let q1 = next_four(w.q1, w.q2, w.q3, q0);
    let q2 = next_four(w.q2, w.q3, q0, q1);
    let q3 = next_four(w.q3, q0, q1, q2);
    Block { q0, q1, q2, q3 }
}

// Sixteen rounds with these constants and these words of the schedule.
#[tactic(auto, unfolding(crate::specs::Fips180::rounds))]
fn sixteen_rounds(k: &[u32; 16], v: State, w: Block) -> State
    ensures { state result ≡ rounds (state v) (sixteen_at k.now 0) (block w) }
{
    let v = two_rounds(k, v, w.q0.a, w.q0.b, 0);
    let v = two_rounds(k, v, w.q0.c, w.q0.d, 2);
    let v = two_rounds(k, v, w.q1.a, w.q1.b, 4);
    let v = two_rounds(k, v, w.q1.c, w.q1.d, 6);
    let v = two_rounds(k, v, w.q2.a, w.q2.b, 8);
    let v = two_rounds(k, v, w.q2.c, w.q2.d, 10);
    let v = two_rounds(k, v, w.q3.a, w.q3.b, 12);
    two_rounds(k, v, w.q3.c, w.q3.d, 14)
}

// The working variables after all rounds.
fn all_rounds(h: State, m: Block) -> State
    ensures { state result ≡ rounds (state h) K (schedule (block m) 48) }
{
    let mut w = m;
    let mut v = sixteen_rounds(&CONSTANTS[0], h, w);
    for k in &CONSTANTS[1..] {
        w = next_words(w);
        v = sixteen_rounds(k, v, w);
    }
    v
}

// The hash value with the working variables added to it.
#[tactic(auto, unfolding(crate::specs::Fips180::added))]
fn added(h: State, v: State) -> State
    ensures { state result ≡ added (state h) (state v) }
{
    State {
        a: v.a.wrapping_add(h.a),
        b: v.b.wrapping_add(h.b),
        c: v.c.wrapping_add(h.c),
        d: v.d.wrapping_add(h.d),
        e: v.e.wrapping_add(h.e),
        f: v.f.wrapping_add(h.f),
        g: v.g.wrapping_add(h.g),
        h: v.h.wrapping_add(h.h),
    }
}

// The hash value after a block.
#[tactic(auto, unfolding(crate::specs::Fips180::compressed))]
pub fn compress(h: State, w: Block) -> State
    ensures { state result ≡ compressed (state h) (block w) }
{
    added(h, all_rounds(h, w))
}
