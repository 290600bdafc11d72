// Made by `tools/face write` from crates/sip_dialog/src, not by hand.
// Calls that are lent numbers: a function for each count of these. Their items are told by the places in the line; `o` has them after the call.
ghost use Rattle.std.specs.Prelude.{◌≡◌, drop};

use crate::{Items, Number, OUTS};

pub fn one<A, Call>(i: Items<'_>, at: [usize; 1], o: &mut [u64; OUTS], call: Call) -> u64
where
    A: Number,
    Call: FnOnce(&mut A) -> u8,
    requires { Call.IsAlwaysCallable call }
    ensures rest { drop 1 o.new ≡ drop 1 o.old }
{
    let mut a = A::cut(i.value(at[0]));
    let r = call(&mut a);
    o[0] = a.wide();
    r as u64
}

pub fn two<A, B, Call>(i: Items<'_>, at: [usize; 2], o: &mut [u64; OUTS], call: Call) -> u64
where
    A: Number,
    B: Number,
    Call: FnOnce(&mut A, &mut B) -> u8,
    requires { Call.IsAlwaysCallable call }
    ensures rest { drop 2 o.new ≡ drop 2 o.old }
{
    let mut a = A::cut(i.value(at[0]));
    let mut b = B::cut(i.value(at[1]));
    let r = call(&mut a, &mut b);
    o[0] = a.wide();
    o[1] = b.wide();
    r as u64
}

pub fn three<A, B, C, Call>(i: Items<'_>, at: [usize; 3], o: &mut [u64; OUTS], call: Call) -> u64
where
    A: Number,
    B: Number,
    C: Number,
    Call: FnOnce(&mut A, &mut B, &mut C) -> u8,
    requires { Call.IsAlwaysCallable call }
    ensures rest { drop 3 o.new ≡ drop 3 o.old }
{
    let mut a = A::cut(i.value(at[0]));
    let mut b = B::cut(i.value(at[1]));
    let mut c = C::cut(i.value(at[2]));
    let r = call(&mut a, &mut b, &mut c);
    o[0] = a.wide();
    o[1] = b.wide();
    o[2] = c.wide();
    r as u64
}

pub fn four<A, B, C, D, Call>(i: Items<'_>, at: [usize; 4], o: &mut [u64; OUTS], call: Call) -> u64
where
    A: Number,
    B: Number,
    C: Number,
    D: Number,
    Call: FnOnce(&mut A, &mut B, &mut C, &mut D) -> u8,
    requires { Call.IsAlwaysCallable call }
    ensures rest { drop 4 o.new ≡ drop 4 o.old }
{
    let mut a = A::cut(i.value(at[0]));
    let mut b = B::cut(i.value(at[1]));
    let mut c = C::cut(i.value(at[2]));
    let mut d = D::cut(i.value(at[3]));
    let r = call(&mut a, &mut b, &mut c, &mut d);
    o[0] = a.wide();
    o[1] = b.wide();
    o[2] = c.wide();
    o[3] = d.wide();
    r as u64
}

pub fn six<A, B, C, D, E, F, Call>(
    i: Items<'_>,
    at: [usize; 6],
    o: &mut [u64; OUTS],
    call: Call,
) -> u64
where
    A: Number,
    B: Number,
    C: Number,
    D: Number,
    E: Number,
    F: Number,
    Call: FnOnce(&mut A, &mut B, &mut C, &mut D, &mut E, &mut F) -> u8,
    requires { Call.IsAlwaysCallable call }
    ensures rest { drop 6 o.new ≡ drop 6 o.old }
{
    let mut a = A::cut(i.value(at[0]));
    let mut b = B::cut(i.value(at[1]));
    let mut c = C::cut(i.value(at[2]));
    let mut d = D::cut(i.value(at[3]));
    let mut e = E::cut(i.value(at[4]));
    let mut f = F::cut(i.value(at[5]));
    let r = call(&mut a, &mut b, &mut c, &mut d, &mut e, &mut f);
    o[0] = a.wide();
    o[1] = b.wide();
    o[2] = c.wide();
    o[3] = d.wide();
    o[4] = e.wide();
    o[5] = f.wide();
    r as u64
}

pub fn seven<A, B, C, D, E, F, G, Call>(
    i: Items<'_>,
    at: [usize; 7],
    o: &mut [u64; OUTS],
    call: Call,
) -> u64
where
    A: Number,
    B: Number,
    C: Number,
    D: Number,
    E: Number,
    F: Number,
    G: Number,
    Call: FnOnce(&mut A, &mut B, &mut C, &mut D, &mut E, &mut F, &mut G) -> u8,
    requires { Call.IsAlwaysCallable call }
    ensures rest { drop 7 o.new ≡ drop 7 o.old }
{
    let mut a = A::cut(i.value(at[0]));
    let mut b = B::cut(i.value(at[1]));
    let mut c = C::cut(i.value(at[2]));
    let mut d = D::cut(i.value(at[3]));
    let mut e = E::cut(i.value(at[4]));
    let mut f = F::cut(i.value(at[5]));
    let mut g = G::cut(i.value(at[6]));
    let r = call(&mut a, &mut b, &mut c, &mut d, &mut e, &mut f, &mut g);
    o[0] = a.wide();
    o[1] = b.wide();
    o[2] = c.wide();
    o[3] = d.wide();
    o[4] = e.wide();
    o[5] = f.wide();
    o[6] = g.wide();
    r as u64
}

pub fn eight<A, B, C, D, E, F, G, H, Call>(
    i: Items<'_>,
    at: [usize; 8],
    o: &mut [u64; OUTS],
    call: Call,
) -> u64
where
    A: Number,
    B: Number,
    C: Number,
    D: Number,
    E: Number,
    F: Number,
    G: Number,
    H: Number,
    Call: FnOnce(&mut A, &mut B, &mut C, &mut D, &mut E, &mut F, &mut G, &mut H) -> u8,
    requires { Call.IsAlwaysCallable call }
{
    let mut a = A::cut(i.value(at[0]));
    let mut b = B::cut(i.value(at[1]));
    let mut c = C::cut(i.value(at[2]));
    let mut d = D::cut(i.value(at[3]));
    let mut e = E::cut(i.value(at[4]));
    let mut f = F::cut(i.value(at[5]));
    let mut g = G::cut(i.value(at[6]));
    let mut h = H::cut(i.value(at[7]));
    let r = call(
        &mut a, &mut b, &mut c, &mut d, &mut e, &mut f, &mut g, &mut h,
    );
    o[0] = a.wide();
    o[1] = b.wide();
    o[2] = c.wide();
    o[3] = d.wide();
    o[4] = e.wide();
    o[5] = f.wide();
    o[6] = g.wide();
    o[7] = h.wide();
    r as u64
}
