ghost use Rattle.std.specs.Prelude.{◌≡◌, ◌≤◌, ℕ, IsOk, length, ◌+◌, ◌++◌, [], List, Option, Some, None, Bool, true, false, IsTrue, slice_get};
ghost use Rattle.tb_prim.specs.declared.event.Event.{Event};
ghost use Rattle.tb_prim.specs.declared.primitive.Primitive.{Primitive};
ghost use Rattle.tb_semantics.specs.Graph.{IsApart, ListsReachable, sum_of};
ghost use Rattle.tb_semantics.specs.Runs.{EmitsInOrder, IsPrefix, after};
ghost use Rattle.tb_core.specs.Effects.{effect_of};
ghost use Rattle.tb_core.specs.Events.{ComesToCall, EndsLast, HasStopped, IsNotLost};
ghost use Rattle.tb_core.specs.FirstUses.{first_of};
ghost use Rattle.tb_core.specs.FreeVariables.{inner_free, is_in, lambda_free, without};
ghost use Rattle.tb_core.specs.Limits.{FewOperands, FewParameters, IsShort, judge_program};
ghost use Rattle.tb_core.specs.Lists.{walked};
ghost use Rattle.tb_core.specs.OperandOrder.{HasLine, Line, order_of};
ghost use Rattle.tb_core.specs.Partners.{AlikeEffects, AlikeLists, AlikeValues, AlikeWalks, Partnered, pairs_of};
ghost use Rattle.tb_core.specs.Reference.{Config, State, Stopped, config_of, events_of, reference};
ghost use Rattle.tb_core.specs.Rules.{Each, EachAll, Every, KeepsRules};
ghost use Rattle.tb_core.specs.Space.{made, made_of, own_words, size_at, space, store_graph};
ghost use Rattle.tb_core.specs.Store.{Content, Env, Value, cut, lookup};
ghost use Rattle.tb_core.specs.Tree.{Form, LambdaTree, ProgramTree};
ghost use Rattle.tb_core.specs.Width.{square_sum, width_of};

/// A run that has stopped stays as it is.
pub fn stopped_stays()
    ensures law { (p : ProgramTree) (order : List Line) (input : List ℕ) (n k : ℕ) (c : Config) (es : List Event) → after (reference p order input) n ≡ Stopped c es → after (reference p order input) (n + k) ≡ Stopped c es }
{}

/// A step emits at most one event, behind those before it; so the events of a run only grow.
pub fn emits_in_order()
    ensures step { (p : ProgramTree) (order : List Line) (input : List ℕ) → EmitsInOrder (reference p order input) }
    ensures run { (p : ProgramTree) (order : List Line) (input : List ℕ) (k n : ℕ) → IsPrefix (events_of (after (reference p order input) k)) (events_of (after (reference p order input) (k + n))) }
{}

/// A run stops with End or Fail, and emits neither before that.
pub fn ends_last()
    ensures law { (p : ProgramTree) (order : List Line) (input : List ℕ) (n : ℕ) → EndsLast (after (reference p order input) n) }
{}

/// Between two calls there are finitely many steps: from each state a run comes to a further call, or to a
/// state without a next step.
pub fn windows_are_finite()
    ensures law { (p : ProgramTree) (order : List Line) (input : List ℕ) (s : State) → ComesToCall (reference p order input).step s }
{}

/// An environment that is cut has each variable of the list where it was, and no other.
pub fn cut_keeps_listed()
    ensures kept { (xs : List ℕ) (r : Env) (y : ℕ) → is_in xs y ≡ true → lookup (cut xs r) y ≡ lookup r y }
    ensures left { (xs : List ℕ) (r : Env) (y : ℕ) → is_in xs y ≡ false → lookup (cut xs r) y ≡ None }
{}

/// A cut to fewer variables makes an earlier one to more needless; so cut twice is cut once.
pub fn cut_to_fewer()
    ensures fewer { (xs ys : List ℕ) (r : Env) → ((y : ℕ) → is_in xs y ≡ true → is_in ys y ≡ true) → cut xs (cut ys r) ≡ cut xs r }
    ensures twice { (xs : List ℕ) (r : Env) → cut xs (cut xs r) ≡ cut xs r }
{}

/// The space of a configuration is its own words and the flat sizes of any list of exactly the locations that
/// it reaches, each once.
pub fn space_counts_once()
    ensures law { (statics : ℕ) (c : Config) (xs : List ℕ) → ListsReachable (store_graph statics c) xs → space statics c ≡ own_words c + sum_of (size_at c.store) xs }
{}

/// The space of a configuration is at most its own words and all that was made.
pub fn space_is_within_made()
    ensures law { (statics : ℕ) (c : Config) → space statics c ≤ own_words c + made c.store }
{}

/// The free variables of a lambda expression of a program are those of its body but its parameters.
pub fn free_of_lambda()
    ensures law { (p : ProgramTree) (n : ℕ) (l : LambdaTree) → KeepsRules p → slice_get p.lambdas n ≡ Some l → inner_free p n ≡ lambda_free (inner_free p) l }
{}

/// The first uses of a list have each of its variables once, and of two lists one after the other those of the
/// first stand before those that only the second has.
pub fn first_uses_once()
    ensures once { (xs : List ℕ) → IsApart (first_of [] xs) }
    ensures same { (xs : List ℕ) (y : ℕ) → is_in (first_of [] xs) y ≡ is_in xs y }
    ensures in_order { (xs ys : List ℕ) → first_of [] (xs ++ ys) ≡ first_of [] xs ++ without xs (first_of [] ys) }
{}

/// Each node of a program that has an order goes by the line of its own operands, in the forms and in the
/// bodies of lambda expressions.
pub fn order_at_nodes()
    ensures forms { (p : ProgramTree) → KeepsRules p → EachAll (HasLine p) p.forms }
    ensures bodies { (p : ProgramTree) (n : ℕ) (l : LambdaTree) → KeepsRules p → slice_get p.lambdas n ≡ Some l → Each (HasLine p) l.body }
{}

/// A run of a program that keeps its rules, in its own order, has a next step until it stops with End or Fail.
pub fn no_run_is_lost()
    ensures law { (p : ProgramTree) (input : List ℕ) (n : ℕ) → KeepsRules p → IsNotLost (after (reference p (order_of p) input) n) }
{}

/// What stands at a location of the store keeps its size along a run: a static object is never smaller than it was.
pub fn items_keep_their_sizes()
    ensures law { (p : ProgramTree) (input : List ℕ) (n k l : ℕ) → KeepsRules p →
        size_at (config_of (after (reference p (order_of p) input) n)).store l
        ≤ size_at (config_of (after (reference p (order_of p) input) (n + k))).store l }
{}

/// What was made only grows along a run.
pub fn made_only_grows()
    ensures law { (p : ProgramTree) (input : List ℕ) (n k : ℕ) → KeepsRules p → made_of (after (reference p (order_of p) input) n) ≤ made_of (after (reference p (order_of p) input) (n + k)) }
{}

/// In a program without an offence each call has at most 12 operands and each lambda expression at most 12 parameters, a
/// line of the order has at most 1,000 operands, no body or form is wider than 1,000, and the sum of their squared widths
/// is at most 1,048,576.
pub fn limits_are_kept()
    ensures forms { (p : ProgramTree) → KeepsRules p → IsOk (judge_program p) → EachAll (λ (s : ℕ) (f : Form). FewOperands f) p.forms }
    ensures bodies { (p : ProgramTree) → KeepsRules p → IsOk (judge_program p) → Every (λ (l : LambdaTree). Each (λ (s : ℕ) (f : Form). FewOperands f) l.body) p.lambdas }
    ensures parameters { (p : ProgramTree) → KeepsRules p → IsOk (judge_program p) → Every FewParameters p.lambdas }
    ensures short_lines { (p : ProgramTree) → KeepsRules p → IsOk (judge_program p) → Every IsShort (order_of p) }
    ensures width { (p : ProgramTree) → IsOk (judge_program p) → width_of p ≤ 1000 }
    ensures squares { (p : ProgramTree) → IsOk (judge_program p) → square_sum p ≤ 1048576 }
{}

/// A program has at most 1,000,000 lines in its order, and at most as many lambda expressions.
pub fn lists_are_few()
    ensures lines { (p : ProgramTree) → KeepsRules p → length (order_of p) ≤ 1000000 }
    ensures lambdas { (p : ProgramTree) → KeepsRules p → length p.lambdas ≤ 1000000 }
{}

/// A run of a program that keeps its rules stops where its events are all in one list: it does not go on for ever without
/// a further event.
pub fn all_events_end()
    ensures law { (p : ProgramTree) (input : List ℕ) (es : List Event) → KeepsRules p →
        ((n : ℕ) → IsPrefix (events_of (after (reference p (order_of p) input) n)) es) →
        (n : ℕ) × HasStopped (after (reference p (order_of p) input) n) }
{}

/// A primitive does the same in two stores whose locations have partners, where what stands at partners is
/// alike: with operands that are alike it gives values or makes or changes objects that are alike, puts the
/// same character, takes or peeks at the input, or fails for the same cause. So does the walk of a list. Where
/// no object and no operand holds the mark of a variable without a value, none comes of it.
pub fn primitives_in_partnered_stores()
    ensures effects { (partner : ℕ → ℕ → Bool) (marks : Bool) (st now : ℕ → Content) →
        Partnered (pairs_of partner) (IsTrue marks) st now → (p : Primitive) (vs ws : List Value) →
        AlikeLists (pairs_of partner) (IsTrue marks) vs ws →
        AlikeEffects (pairs_of partner) (IsTrue marks) (effect_of st p vs) (effect_of now p ws) }
    ensures walks { (partner : ℕ → ℕ → Bool) (marks : Bool) (st now : ℕ → Content) →
        Partnered (pairs_of partner) (IsTrue marks) st now → (n : ℕ) (v w : Value) →
        AlikeValues (pairs_of partner) (IsTrue marks) v w →
        AlikeWalks (pairs_of partner) (IsTrue marks) (walked st n v) (walked now n w) }
{}
