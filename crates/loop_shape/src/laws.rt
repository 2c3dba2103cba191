//! Laws of the words along a loop.

ghost use Rattle.std.specs.Prelude.{◌≡◌, ℕ, ◌+◌, ◌<◌, Bool, true, false, not, ◌&&◌, ◌||◌, IsTrue, ◌↔◌};
ghost use Rattle.loop_shape.specs.LoopShape.{LoopShape, IsPosition, after, steps_on};
ghost use Rattle.loop_shape.specs.AlongLoop.{finally_at, globally_at, until_at, release_at, weak_until_at, ComesAfter};

/// What follows a position is a position, and what holds at each position holds at every one that
/// is reached.
pub fn positions_stay()
    ensures after { (shape : LoopShape) (i : ℕ) → IsPosition shape i → IsPosition shape (after shape i) }
    ensures globally { (shape : LoopShape) (a : ℕ → Bool) (i : ℕ) → IsPosition shape i →
        ((j : ℕ) → IsPosition shape j → IsTrue (a j)) → IsTrue (globally_at shape a i) }
{}

/// Each word is its own unrolling by a step.
pub fn words_unroll()
    ensures finally { (shape : LoopShape) (a : ℕ → Bool) (i : ℕ) → IsPosition shape i →
        finally_at shape a i ≡ (a i || finally_at shape a (after shape i)) }
    ensures globally { (shape : LoopShape) (a : ℕ → Bool) (i : ℕ) → IsPosition shape i →
        globally_at shape a i ≡ (a i && globally_at shape a (after shape i)) }
    ensures until { (shape : LoopShape) (a b : ℕ → Bool) (i : ℕ) → IsPosition shape i →
        until_at shape a b i ≡ (b i || (a i && until_at shape a b (after shape i))) }
    ensures release { (shape : LoopShape) (a b : ℕ → Bool) (i : ℕ) → IsPosition shape i →
        release_at shape a b i ≡ (b i && (a i || release_at shape a b (after shape i))) }
    ensures weak_until { (shape : LoopShape) (a b : ℕ → Bool) (i : ℕ) → IsPosition shape i →
        weak_until_at shape a b i ≡ (b i || (a i && weak_until_at shape a b (after shape i))) }
{}

/// An until holds exactly where what it waits for comes after some steps, and then it comes within
/// as many steps as the loop has positions.
pub fn untils_come()
    ensures comes { (shape : LoopShape) (a b : ℕ → Bool) (i : ℕ) → IsPosition shape i → IsTrue (until_at shape a b i) →
        (n : ℕ) × (n < shape.start + shape.length) × ComesAfter shape a b n i }
    ensures holds { (shape : LoopShape) (a b : ℕ → Bool) (n i : ℕ) → IsPosition shape i → ComesAfter shape a b n i →
        IsTrue (until_at shape a b i) }
{}

/// Until and release, finally and globally are dual, and finally and globally are an until and a
/// release.
pub fn words_are_dual()
    ensures until { (shape : LoopShape) (a b : ℕ → Bool) (i : ℕ) →
        not (until_at shape a b i) ≡ release_at shape (λ j. not (a j)) (λ j. not (b j)) i }
    ensures release { (shape : LoopShape) (a b : ℕ → Bool) (i : ℕ) →
        not (release_at shape a b i) ≡ until_at shape (λ j. not (a j)) (λ j. not (b j)) i }
    ensures finally { (shape : LoopShape) (a : ℕ → Bool) (i : ℕ) →
        not (finally_at shape a i) ≡ globally_at shape (λ j. not (a j)) i }
    ensures finally_is_until { (shape : LoopShape) (a : ℕ → Bool) (i : ℕ) →
        finally_at shape a i ≡ until_at shape (λ _. true) a i }
    ensures globally_is_release { (shape : LoopShape) (a : ℕ → Bool) (i : ℕ) →
        globally_at shape a i ≡ release_at shape (λ _. false) a i }
{}

/// An until is the least solution of its unrolling by a step, and a release the greatest.
pub fn words_are_fixpoints()
    ensures until { (shape : LoopShape) (a b u : ℕ → Bool) →
        ((j : ℕ) → IsPosition shape j → IsTrue (b j || (a j && u (after shape j))) → IsTrue (u j)) →
        (i : ℕ) → IsPosition shape i → IsTrue (until_at shape a b i) → IsTrue (u i) }
    ensures release { (shape : LoopShape) (a b u : ℕ → Bool) →
        ((j : ℕ) → IsPosition shape j → IsTrue (u j) → IsTrue (b j && (a j || u (after shape j)))) →
        (i : ℕ) → IsPosition shape i → IsTrue (u i) → IsTrue (release_at shape a b i) }
{}
