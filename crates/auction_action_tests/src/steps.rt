//! The steps of each action, in full.

use crate::shop::SHOP;
use crate::tables::expect_steps;

/// Component 0 is Web, 1 Users, 2 Numbers, 3 Items, 4 Categories, 5 Bids, 6 Purchases and 7 Feedback. Each access is
/// made inside the owner of its table, which is left again, unless the action goes through that owner.
const STEPS: &str = "\
3 1000 bid 1 100|e0.0 e5.0 e3.0 r4.1 x p6.1048577 e3.0 p4.1 x x x d200
4 1000 sell 2 150 0 24 Globe|\
e0.0 e4.0 r5.2 x e2.0 r3.2 x e2.0 r3.4294967298 x e1.0 r1.4 x e2.0 p3.2 x e2.0 p3.4294967298 x e3.0 p4.8 x e3.0 \
p7.8589934595 x e1.0 p1.4 x e3.0 p9.17179869185 x x d200
0 1000 browse 2 0|\
e0.0 e4.0 r5.2 x e2.0 r3.4294967298 x e3.0 r7.8589934593 x e3.0 r4.6 x e3.0 r7.8589934594 x e3.0 r4.7 x x d200
0 1000 home|e0.0 x d200
0 1000 register eve open sesame|\
e0.0 e1.0 r2.9594403195376995259 x e2.0 r3.1 x e2.0 p3.1 x e1.0 p1.5 x e1.0 p2.9594403195376995259 x x d200
0 1000 signin bob secret|e0.0 e1.0 r2.9346719481748178650 x e1.0 r1.2 x x d200
2 1000 signout|e0.0 x d200
0 1000 categories|e0.0 e4.0 l5 x x d200
1 1000 addcategory Maps|e0.0 e2.0 r3.3 x e2.0 p3.3 x e4.0 p5.3 x x d200
0 1000 item 6|e0.0 e3.0 r4.6 x e1.0 r1.3 x x d200
0 1000 user 4|e0.0 e1.0 r1.4 x x d200
3 1000 about|e0.0 e1.0 r1.3 x e3.0 r9.12884901890 x e3.0 r4.7 x e3.0 r9.12884901889 x e3.0 r4.6 x x d200
3 1000 buy 1|e0.0 e6.1 e3.0 r4.1 x e3.0 p4.1 x x x d200
2 1000 close 1|e0.0 e6.0 e3.0 r4.1 x e3.0 p4.1 x x x d200
3 1000 feedback 4 good Fine|e0.0 e7.0 e3.0 r4.4 x e1.0 r1.2 x p8.2097157 e1.0 p1.2 x e3.0 p4.4 x x x d200
0 1000 form bid|e0.0 x d200";

/// At the first refusal the accesses end, and all components are left.
const REFUSED: &str = "\
0 1000 bid 1 100|e0.0 e5.0 x x d403
3 1000 bid 99 100|e0.0 e5.0 e3.0 r4.99 x x x d404
0 1000 buy 1|e0.0 e6.1 x x d403
0 1000 about|e0.0 x d403
4 1000 sell 2 100 99 24 Globe|e0.0 x d400
4 1000 sell 9 100 0 24 Globe|e0.0 e4.0 r5.9 x x d409
0 1000 register bob secret|e0.0 e1.0 r2.9346719481748178650 x x d409
0 1000 signin eve secret|e0.0 e1.0 r2.9594403195376995259 x x d403
2 1000 addcategory Maps|e0.0 x d403
4 1000 feedback 4 good Fine|e0.0 e7.0 e3.0 r4.4 x x x d403
0 1000 browse 1 1|e0.0 e4.0 r5.1 x e2.0 r3.4294967297 x x d200";

#[test]
fn actions_make_their_steps(rt: HostRuntime) {
    expect_steps(&rt, rt.alloc(), SHOP, STEPS);
    expect_steps(&rt, rt.alloc(), SHOP, REFUSED);
}
