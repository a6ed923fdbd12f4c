//! Laws: each function here does nothing, and its contract is a theorem over definitions.
ghost use Rattle.std.specs.Prelude.{◌≡◌, ℕ, ◌+◌, length, Option, Result, Ok, Err};
ghost use Rattle.call_values.specs.declared.calls.Call.{Call};
ghost use Rattle.call_values.specs.Calls.{IsCall};
ghost use Rattle.expansion.specs.declared.values.Sets.{Sets};
ghost use Rattle.slot_join.specs.declared.joined.Extra.{Extra};
ghost use Rattle.slot_join.specs.declared.joined.Extra.TheVariants.{Whole};
ghost use Rattle.line_grammar.specs.Columns.{ReadsAs};
ghost use Rattle.call_texts.specs.CallParts.{call_text};
ghost use Rattle.call_texts.specs.Texts.{IsBareCallText, IsCallText, IsWholeOrAbsent, extra_of, reported_text};

/// The law that of a call's text, and of an expansion's where one follows, reading can answer nothing but this call and
/// this expansion.
pub fn call_texts_are_read()
    ensures { (call : Call) (expansion : Option Sets) (answer : Result (Call × Option Sets) ℕ)
        → IsCall call → IsWholeOrAbsent (extra_of expansion)
        → ReadsAs IsCallText (reported_text call (extra_of expansion)) answer → answer ≡ Ok (call, expansion) }
{}

/// The law that of a call's text, where no expansion may follow, reading can answer nothing but this call.
pub fn bare_call_texts_are_read()
    ensures { (call : Call) (answer : Result Call ℕ) → IsCall call → ReadsAs IsBareCallText (call_text call) answer
        → answer ≡ Ok call }
{}

/// The law that an expansion is refused at the blank in front of it, where none may follow.
pub fn expansions_are_refused_at_their_blank()
    ensures { (call : Call) (x : Sets) (answer : Result Call ℕ) → IsCall call
        → ReadsAs IsBareCallText (reported_text call (Whole x)) answer → answer ≡ Err (length (call_text call) + 1) }
{}

/// The law that no two calls have one text, whatever expansion follows them.
pub fn texts_tell_calls_apart()
    ensures { (a b : Call) (x y : Extra) → IsCall a → IsCall b → IsWholeOrAbsent x → IsWholeOrAbsent y
        → reported_text a x ≡ reported_text b y → (a ≡ b) × (x ≡ y) }
{}
