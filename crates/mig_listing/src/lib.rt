//! Lists that are said by what they hold and by their order.
#![tactic(auto)]

ghost use Rattle.std.specs.Prelude.{◌≡◌, ◌⊎◌, ◌++◌, ◌∷◌, [], ℕ, Bool, List, Option};
ghost use Rattle.mig_listing.specs.Listing.{IsListOf, Rises};
ghost use Rattle.mig_listing.specs.Fronts.{IsFront, IsNext};
ghost use Rattle.mig_listing.specs.Orders.{Before, IsOrder, Less, Lex};
ghost use Rattle.mig_listing.specs.Chosen.{ChosenLaw};
ghost use Rattle.mig_listing.specs.Finding.{Finds, Offers, first_some};
ghost use Rattle.mig_listing.specs.Choices.{IsChoice, choices};
ghost use Rattle.mig_listing.specs.Tests.{Passes, Precedes};

/// There is one list of all that a test accepts, in an order.
pub fn one_listing<T>()
    ensures one { (test : T → Bool) (before : T → T → Bool) (xs ys : List T)
        → IsOrder (Precedes before)
        → IsListOf (Passes test) (Precedes before) xs
        → IsListOf (Passes test) (Precedes before) ys
        → xs ≡ ys }
{}

/// That list begins with each of its fronts and the front's next item. So one who finds the next item k times has its first k items.
pub fn next_of_listing<T>()
    ensures next { (test : T → Bool) (before : T → T → Bool) (all xs : List T) (m : T)
        → IsOrder (Precedes before)
        → IsListOf (Passes test) (Precedes before) all
        → IsFront (Passes test) (Precedes before) xs
        → IsNext (Passes test) (Precedes before) xs m
        → (rest : List T) × (all ≡ (xs ++ m ∷ []) ++ rest) }
{}

/// The choices of n of a rising pool are all sets of n of its numbers, in order.
pub fn listing_of_choices()
    ensures all { (n : ℕ) (pool : List ℕ) → Rises Less pool
        → IsListOf (IsChoice n pool) (Lex Less) (choices n pool) }
{}

/// Lists of numbers, a front before what it begins, stand in an order, and of two different ones one stands first.
pub fn lists_stand_in_order()
    ensures order { IsOrder Before }
    ensures total { (xs ys : List ℕ) → (xs ≡ ys) ⊎ (Before xs ys ⊎ Before ys xs) }
{}

/// What the first of a rising list gives, in which each key stands that gives something, is what the least key gives.
pub fn first_of_offered<K, V>()
    ensures least { (before : K → K → Bool) (gives : K → Option V) (keys : List K)
        → IsOrder (Precedes before)
        → Offers (Precedes before) gives keys
        → Finds (Precedes before) gives (first_some gives keys) }
{}

/// Lists of numbers chosen one after the other, each of those that may follow, are all that may be, in order.
pub fn chosen_lists_are_all()
    ensures { ChosenLaw }
{}
