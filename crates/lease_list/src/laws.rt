//! The law of names. It is the contract of a function that does nothing: a caller that needs the law calls the
//! function.

ghost use Rattle.std.specs.Prelude.{◌≡◌, ◌≢◌, ◌↔◌, ℕ, List as Seq, [], ◌∷◌, ◌++◌, IsTrue};
ghost use denote.RawPtr.{Ptr};
ghost use Rattle.lease_list.specs.Leases.{Lease, lease, Stands, Leaves, HasValue, rises};

/// A name that stands in a list has a value there, and one that has a value stands (`stands`). What is pushed stands
/// with its value (`pushed`). In a list whose numbers rise, as they do in each, a name has one value and lies at one
/// place (`one`). A node that leaves had the value that is given back (`had`) and stands no more (`left`); each other
/// one stands just where it stood, with its value (`others`). It refuses a list that lends the value of its first node
/// whatever node is asked for, and one that takes out another node than that of the name.
pub fn names_stand_until_they_leave<T>()
    ensures stands { (nodes : Seq (Lease T)) (k : ℕ) (p : Ptr) → Stands nodes k p ↔ ((v : T) × HasValue nodes k p v) }
    ensures pushed { (nodes : Seq (Lease T)) (k : ℕ) (p : Ptr) (v : T) → HasValue (nodes ++ lease k p v ∷ []) k p v }
    ensures one { (next : ℕ) (nodes : Seq (Lease T)) (k : ℕ) (p q : Ptr) (v w : T) → IsTrue (rises next nodes)
        → HasValue nodes k p v → HasValue nodes k q w → (p ≡ q) × (v ≡ w) }
    ensures had { (old new : Seq (Lease T)) (k : ℕ) (p : Ptr) (v : T) → Leaves old k p v new → HasValue old k p v }
    ensures left { (next : ℕ) (old new : Seq (Lease T)) (k : ℕ) (p q : Ptr) (v : T) → IsTrue (rises next old)
        → Leaves old k p v new → Stands new k q → ⊥ }
    ensures others { (old new : Seq (Lease T)) (k j : ℕ) (p q : Ptr) (v w : T) → Leaves old k p v new → j ≢ k
        → HasValue old j q w ↔ HasValue new j q w }
{}
