//! What the definitions of instances determine.

ghost use Rattle.std.specs.Prelude.{◌≡◌, ◌≢◌, ℕ, ◌≤◌, ◌<◌, Bool, List, [], ◌∷◌, ◌++◌, length, map, flat_map, Contains, IsPermutation, IsSorted, Option, Some, slice_get};
ghost use Rattle.std.specs.Cmp.{IsEquivalence};
ghost use Rattle.std.specs.List.{AllByRecursion, dedup};
ghost use Rattle.std.specs.Ordering.{eq_by_cmp};
ghost use Rattle.rdl_base.specs.Faults.{fault_cmp};
ghost use Rattle.rdl_base.specs.declared.fault.Fault.{Fault};
ghost use Rattle.rdl_tree.specs.declared.item.Source.{Source};
ghost use Rattle.rdl_tree.specs.declared.node.Elab.{Elab};
ghost use Rattle.rdl_tree.specs.declared.node.Node.{Node, out-Node};
ghost use Rattle.rdl_values.specs.Elaborated.{IsElab, IsNodeOf, Says, measured, top_name};
ghost use Rattle.rdl_values.specs.Faults.{at_};
ghost use Rattle.rdl_values.specs.Verdict.{IsListOf, in_order};
ghost use Rattle.rdl_values.specs.Given.{IsGivenBy};
ghost use Rattle.rdl_values.specs.Instances.{Instance, children, given_by, judged_nodes, kind_of, most_nodes, nodes, rows, signals, upto};
ghost use Rattle.rdl_values.specs.Bodies.{Body};
ghost use Rattle.rdl_values.specs.NoNode.{no_node};
ghost use Rattle.rdl_tree.specs.declared.expr.Expr.{Expr};
ghost use Rattle.rdl_tree.specs.declared.expr.Name.{Name};
ghost use Rattle.rdl_values.specs.Values.{Around, entry_value, parameter, value_of};
ghost use Rattle.rdl_values.specs.Primary.{HasPrimary};
ghost use Rattle.rdl_values.specs.Rows.{product, row};
ghost use Rattle.rdl_values.specs.Scopes.{AreScopesIn};
ghost use Rattle.rdl_values.specs.Paths.{at_root, in_node};
ghost use Rattle.rdl_values.specs.Uses.{Seen, seen};
ghost use Rattle.rdl_values.specs.Phase3.{failures3, of_judged, of_node, too_many_nodes};
ghost use Rattle.rdl_values.specs.Elaboration.{Elaborates};
ghost use Rattle.rdl_values.specs.Top.{root, top_use_of};

/// Rule E9 fails exactly where the count of nodes goes past those that are judged.
pub fn over_the_count()
    ensures few { (wanted : Option (List ℕ)) (s : Source) → measured wanted s ≤ most_nodes → too_many_nodes wanted s ≡ [] }
    ensures many { (wanted : Option (List ℕ)) (s : Source) → most_nodes < measured wanted s → too_many_nodes wanted s ≢ [] }
{}

/// Every node is given by a use that fails nothing: those in the body of a node, and the signals at the root.
pub fn nodes_are_given()
    ensures children { (n : Instance) → AllByRecursion (λ c. (s : Seen) × (s.parent ≡ in_node n.path (kind_of n)) × IsGivenBy s c) (children n) }
    ensures signals_ { (s : Source) → AllByRecursion (λ c. (u : Seen) × (u.parent ≡ at_root) × IsGivenBy u c) (signals s) }
{}

/// The tree of a source has as many nodes as are counted, and each says what the instance at its number is.
pub fn nodes_are_numbered()
    ensures count { (wanted : Option (List ℕ)) (s : Source) (e : Elab) → IsElab wanted s e → e.count ≡ length (nodes wanted s) }
    ensures numbers { (wanted : Option (List ℕ)) (s : Source) (e : Elab) → IsElab wanted s e → (beside : List Node) (r : Node) → IsNodeOf e beside r
        → (n : Instance) × (slice_get (nodes wanted s) (out-Node r).id ≡ Some n) × Says beside r n }
{}

/// A sort of the failures that were collected and the dropping of repeats, by any equality that agrees with their order, give
/// the list of what fails. So does the definition's own sort.
pub fn sorted_once()
    ensures dropped { (fs sorted : List Fault) (same : Fault → Fault → Bool) → IsEquivalence same → ((f g : Fault) → same f g ≡ eq_by_cmp fault_cmp f g)
        → IsPermutation fs sorted → IsSorted fault_cmp sorted → IsListOf (λ rule place. Contains fs (at_ rule place)) (dedup same sorted) }
    ensures inserted { (fs : List Fault) → IsListOf (λ rule place. Contains fs (at_ rule place)) (in_order fs) }
{}

/// Where the list of what fails is empty, nothing was collected.
pub fn none_fails()
    ensures { (fs : List Fault) → IsListOf (λ rule place. Contains fs (at_ rule place)) [] → fs ≡ [] }
{}

/// The lists of two parts of a phase give that of the phase.
pub fn lists_merge()
    ensures { (fs gs of_fs of_gs : List Fault) → IsListOf (λ rule place. Contains fs (at_ rule place)) of_fs → IsListOf (λ rule place. Contains gs (at_ rule place)) of_gs
        → IsListOf (λ rule place. Contains (fs ++ gs) (at_ rule place)) (in_order (of_fs ++ of_gs)) }
{}

/// Where no rule on instances fails, the top's own name determines the top, whatever was wanted; and so the tree is that of the
/// name as well.
pub fn name_decides_the_top()
    ensures top { (wanted : Option (List ℕ)) (s : Source) (e : Elab) → Elaborates wanted s e → top_use_of wanted s ≡ top_use_of (Some (top_name e)) s }
    ensures tree { (wanted : Option (List ℕ)) (s : Source) (e : Elab) → Elaborates wanted s e → Elaborates (Some (top_name e)) s e }
{}

/// Where no rule on instances fails, nothing fails of the root's body, of the body of any node that is judged, so that each use
/// in them gives its nodes; and no node is over the limit.
pub fn clean_source()
    ensures root_ { (wanted : Option (List ℕ)) (s : Source) → failures3 wanted s ≡ [] → of_judged (seen [] (root s)) (root s) ≡ [] }
    ensures nodes_ { (wanted : Option (List ℕ)) (s : Source) → failures3 wanted s ≡ [] → AllByRecursion (λ n. of_node n ≡ []) (judged_nodes wanted s) }
    ensures uses { (us : List Seen) (b : Body) → of_judged us b ≡ [] → AllByRecursion (λ u. no_node u ≡ []) us }
    ensures few { (wanted : Option (List ℕ)) (s : Source) → failures3 wanted s ≡ [] → too_many_nodes wanted s ≡ [] }
{}

/// The bodies round a definition's text are the root's and those of nodes above, each seen from behind items at its front.
pub fn scopes_are_bodies()
    ensures { (wanted : Option (List ℕ)) (s : Source) → AllByRecursion (λ n. AreScopesIn (root s ∷ n.above) n.closure.scope) (nodes wanted s) }
{}

/// The elements of an array in order, the last index fastest, are those of the numbers from 0 on.
pub fn rows_by_number()
    ensures { (dims : List ℕ) → rows dims ≡ map (row dims) (upto (product dims)) }
{}

/// Where each use of a body gives its nodes, the primary that an alias names is a node of the body: a register, and no alias.
pub fn primaries_stand()
    ensures { (above : List Body) (b : Body) → AllByRecursion (λ s. no_node s ≡ []) (seen above b)
        → AllByRecursion (λ s. (n : Name) → s.use_.alias ≡ Some n → HasPrimary n (flat_map given_by (seen above b))) (seen above b) }
{}

/// A value depends on what names stand for alone: so it is the same where of two parameters, enumerations or entries of one name
/// the one that is not meant is left out.
pub fn values_by_look_ups()
    ensures { (a b : Around) → ((n : List ℕ) → parameter a n ≡ parameter b n) → ((e n : Name) → entry_value a e n ≡ entry_value b e n)
        → (x : Expr) → value_of a x ≡ value_of b x }
{}
