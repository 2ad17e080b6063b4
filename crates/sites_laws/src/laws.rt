ghost use Rattle.std.specs.Prelude.{◌≡◌, ℕ, ℤ, ◌+◌, true, List, ◌++◌, length, map};
ghost use Rattle.std.specs.List.{AllByRecursion};
ghost use Rattle.c_syntax.specs.Words.{ItemTree, SourceTree, ItemAt, item_kinds, IsShaped, ShapedItem};
ghost use Rattle.c_types_rules.specs.TypeTree.{TypeTree};
ghost use Rattle.c_types.specs.Fault.{walk_tree};
ghost use Rattle.c_types_expressions.specs.Walked.{Fine};
ghost use Rattle.c_types_expressions.specs.declared.walk.Walk.{Walk};
ghost use Rattle.c_types_faults.specs.Events.{is_point};
ghost use Rattle.c_types_faults.specs.Scopes.{scopes_of};
ghost use Rattle.flow.specs.declared.site.Partner.TheVariants as partner;
ghost use Rattle.sites.specs.SitesAt.{partners_of};
ghost use Rattle.sites.specs.Standing.{item_spots};
ghost use Rattle.sites_laws.specs.Constructs.{AreAll, AreMadeBy, SpotsRise, body_events, item_constructs, numbers_in, values_in};
ghost use Rattle.sites_laws.specs.Partners.{partners_in};
ghost use Rattle.sites_laws.specs.Told.{ItemTold};
ghost use Rattle.sites_laws.specs.Words.{AreBranchesOf};

/// In a tree of the grammar without a fault, a new value of a variable is compared, at the own token of an expression or the
/// `=` of an initialiser, with each other variable of the type whose scope holds the token by the span of the part that
/// declares it and which no later one of its name hides there, in the order of declaration, and then with the constants.
pub fn partners_are_in_scope()
    ensures { (t : SourceTree) (known : Walk) → IsShaped t → walk_tree t ≡ Fine tt known → (constants : List ℤ) (token place : ℕ) (of : TypeTree)
        → is_point t token ≡ true → partners_of known constants token place of ≡ partners_in known token place of 0 known.variables (scopes_of t)
        ++ map partner.Constant constants }
{}

/// In a tree of the grammar without a fault, the sites for all schemes of a function's body are those that its tree says: one
/// for each branch, one for each call of a function that the text defines, of `getchar` or of `malloc` that gives a scalar, and for each new
/// value of a variable that holds a number one for each that it is compared with.
pub fn sites_are_where_the_tree_says()
    ensures { (t : SourceTree) (known : Walk) → IsShaped t → walk_tree t ≡ Fine tt known → (number : ℕ) → AllByRecursion (ItemTold t known number) t.items }
{}

/// What a function's body holds for sites is what the constructs make that are evaluated in it, each of them once: a branch at
/// each `if`, `while`, `do`, `?`, `&&` and `||` and at each `for` with a condition, a call at each call, a new value at each
/// assignment, `++` and `--` of a variable's name and at the `=` of a variable that begins with a value, and each constant. Their
/// tokens never fall and are the function's, and the constants come from left to right. No expression is left out: each own token
/// that the events of the body list is that of one construct, or stands in the operand of a `sizeof`.
pub fn spots_are_those_of_constructs()
    ensures made { (x : ItemTree) → AreMadeBy (item_constructs x) (item_spots x) }
    ensures constants { (x : ItemTree) → values_in (item_spots x) ≡ numbers_in (item_constructs x) }
    ensures whole { (x : ItemTree) → AreAll (item_constructs x) (body_events x) }
    ensures rise { (x : ItemTree) (at : ℕ) → ItemAt at x → SpotsRise at (at + length (item_kinds x)) (item_spots x) }
{}

/// A function has as many branches of statements as its tokens have words for them: one at each `if`, one at each `do`, one at each
/// `while` that isn't that of a `do`, and one at each `for` with a condition.
pub fn branches_are_those_of_words()
    ensures { (x : ItemTree) → ShapedItem x → AreBranchesOf (item_kinds x) (item_spots x) }
{}
