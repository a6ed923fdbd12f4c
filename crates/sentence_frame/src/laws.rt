//! Laws: each function here does nothing, and its contract is a theorem over definitions.
ghost use Rattle.std.specs.Prelude.{◌≡◌, true, ℕ, List, Ok};
ghost use Rattle.sentence_frame.specs.Frames.{sentence};
ghost use Rattle.sentence_frame.specs.Refusals.{Form, is_head, texts_of};
ghost use Rattle.sentence_frame.specs.Laws.{AreTexts};

/// The law that bytes of which texts are read are the sentence of these texts.
pub fn what_is_read_is_the_sentence()
    ensures { (form : Form) (bytes : List ℕ) (texts : List (List ℕ)) → is_head form.head ≡ true
        → texts_of form bytes ≡ Ok texts → bytes ≡ sentence form.head texts }
{}

/// The law that of a sentence its texts are read.
pub fn sentences_are_read()
    ensures { (form : Form) (texts : List (List ℕ)) → AreTexts form texts
        → texts_of form (sentence form.head texts) ≡ Ok texts }
{}
