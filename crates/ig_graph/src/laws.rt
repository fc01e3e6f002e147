//! The laws of graphs. Each function has no code: its contract is a law.
ghost use Rattle.std.specs.Prelude.{◌≡◌, ◌<◌, ◌≤◌, ◌↔◌, ℕ, Bool, true, false, List, slice_index, length, map};
ghost use Rattle.ig_graph.specs.Counts.{how_many, those_below, IsInjection};
ghost use Rattle.ig_graph.specs.Graph.{Graph, is_in, steps, IsSymmetric, Joined, least, is_root, part_of};
ghost use Rattle.ig_graph.specs.Quotients.{IsQuotient, Numbered, IsOrdered};
ghost use Rattle.ig_graph.specs.Numbers.{first_of_class, number_of};
ghost use Rattle.ig_graph.specs.Sets.{each_alone, united, AreJoined, AreClasses};

/// The least number is joined, and no joined one is below it.
pub fn least_is_least()
    ensures joined { (g : Graph) (p : ℕ) → p < g.size → Joined g p (least g p) }
    ensures least { (g : Graph) (p q : ℕ) → p < g.size → q < g.size → Joined g p q → least g p ≤ q }
{}

/// Numbers are joined exactly where their least ones are the same.
pub fn same_least_is_joined()
    ensures { (g : Graph) → IsSymmetric g → (p q : ℕ) → p < g.size → q < g.size → (least g p ≡ least g q) ↔ Joined g p q }
{}

/// Nodes are joined exactly where their parts are equal, and exactly what is no node has part 0.
pub fn parts_are_of_joined()
    ensures same { (g : Graph) → IsSymmetric g → (p q : ℕ) → is_in g p ≡ true → is_in g q ≡ true → (part_of g p ≡ part_of g q) ↔ Joined g p q }
    ensures none { (g : Graph) (p : ℕ) → (part_of g p ≡ 0) ↔ (is_in g p ≡ false) }
{}

/// Nodes are joined exactly where a quotient joins what they are taken to.
pub fn joined_by_quotient()
    ensures { (g h : Graph) (f : ℕ → ℕ) → IsQuotient g h f → (p q : ℕ) → is_in g p ≡ true → is_in g q ≡ true → Joined g p q ↔ Joined h (f p) (f q) }
{}

/// In a quotient the least first node of a class is the least that is joined, and the number of the class is the part of each
/// node under it. Where greater numbers have greater first nodes, so is the part of the number.
pub fn parts_by_quotient()
    ensures first { (g h : Graph) (f first : ℕ → ℕ) → Numbered g h f first → (p : ℕ) → is_in g p ≡ true → first_of_class (least h) first h.size (f p) ≡ least g p }
    ensures number { (g h : Graph) (f first : ℕ → ℕ) → Numbered g h f first → (p : ℕ) → is_in g p ≡ true → number_of (least h) first h.size (f p) ≡ part_of g p }
    ensures part { (g h : Graph) (f first : ℕ → ℕ) → Numbered g h f first → IsOrdered h first → (p : ℕ) → is_in g p ≡ true → part_of h (f p) ≡ part_of g p }
    ensures firsts { (g h : Graph) (f first : ℕ → ℕ) → Numbered g h f first → IsOrdered h first → map first (those_below (is_root h) h.size) ≡ those_below (is_root g) g.size }
{}

/// One map that takes no two numbers to the same shows that no more pass, and one each way that as many do.
pub fn fewer_by_injection()
    ensures fewer { (p : ℕ → Bool) (n : ℕ) (q : ℕ → Bool) (m : ℕ) (f : ℕ → ℕ) → IsInjection p n q m f → how_many p n ≤ how_many q m }
    ensures same { (p : ℕ → Bool) (n : ℕ) (q : ℕ → Bool) (m : ℕ) (f g : ℕ → ℕ) → IsInjection p n q m f → IsInjection q m p n g → how_many p n ≡ how_many q m }
{}

/// Sets that are put together for joined numbers alone, and for each step, are the classes of joined numbers.
pub fn sets_are_classes()
    ensures alone { (g : Graph) → AreJoined g (each_alone g.size) }
    ensures united { (g : Graph) (sets : List ℕ) (a b : ℕ) → AreJoined g sets → IsSymmetric g → a < g.size → b < g.size → Joined g a b → AreJoined g (united sets a b) }
    ensures same { (sets : List ℕ) (a b : ℕ) → a < length sets → b < length sets → slice_index (united sets a b) a ≡ slice_index (united sets a b) b }
    ensures kept { (sets : List ℕ) (a b p q : ℕ) → p < length sets → q < length sets → slice_index sets p ≡ slice_index sets q → slice_index (united sets a b) p ≡ slice_index (united sets a b) q }
    ensures all { (g : Graph) (sets : List ℕ) → AreJoined g sets → ((p q : ℕ) → steps g p q ≡ true → slice_index sets p ≡ slice_index sets q) → AreClasses g sets }
{}
