//! What the definitions determine.

ghost use Rattle.std.specs.List.{list_all};
ghost use Rattle.std.specs.Prelude.{◌≡◌, ℕ, IsTrue, List, [], ◌++◌};
ghost use Rattle.rb_grammar.specs.Separators.{is_blank};
ghost use Rattle.rb_grammar.specs.Lexemes.{Lexicon};
ghost use Rattle.rb_grammar.specs.Spelling.{At, Fault, Spells, Faults, tokens_of};
ghost use Rattle.rb_grammar.specs.Printing.{Cell, Printer, cells_text, cell_tokens, printable};
ghost use Rattle.rb_grammar.specs.Forms.{Form, Non, Grammar, Fits, Begins, StopsAt, choices};
ghost use Rattle.rb_grammar.specs.Firsts.{Table, IsTableOf, decides, IsDecided};
ghost use Rattle.rb_grammar.specs.declared.nesting.Nesting.{Nesting};
ghost use Rattle.rb_grammar.specs.Judging.{IsGood, IsWrongAt, IsTooDeepAt};

/// A text spells at most one list of tokens.
pub fn one_spelling<T>()
    ensures { (language : Lexicon T) (text : List ℕ) (ts us : List (At T)) → Spells language text ts → Spells language text us → ts ≡ us }
{}

/// A text has at most one first fault.
pub fn one_fault<T>()
    ensures { (language : Lexicon T) (text : List ℕ) (f g : Fault) (p q : ℕ) → Faults language text f p → Faults language text g q → (f ≡ g) × (p ≡ q) }
{}

/// A text that spells tokens has no fault.
pub fn spelling_excludes_fault<T>()
    ensures { (language : Lexicon T) (text : List ℕ) (ts : List (At T)) (f : Fault) (p : ℕ) → Spells language text ts → Faults language text f p → ⊥ }
{}

/// Tokens that are printed with blanks between them are spelled by what was printed.
pub fn printed<T>()
    ensures { (language : Lexicon T) (printer : Printer language) (cells : List (Cell T)) (last : List ℕ) → IsTrue (printable printer cells) → IsTrue (list_all is_blank last)
        → (ts : List (At T)) × Spells language (cells_text printer cells last) ts × (tokens_of ts ≡ cell_tokens cells) }
{}

/// Each front of a list that fits or begins a form begins it.
pub fn fronts_begin<T, N, K>()
    ensures fits { (G : Grammar T N K) (f : Form T N) (front after : List K) → Fits G f (front ++ after) → Begins G f front }
    ensures begins { (G : Grammar T N K) (f : Form T N) (front after : List K) → Begins G f (front ++ after) → Begins G f front }
{}

/// A list that begins a form goes on to fit it, where each terminal has a token and each rule a list that fits it.
pub fn beginnings_go_on<T, N, K>()
    ensures { (G : Grammar T N K) → ((a : T) → (t : K) × IsTrue (G.is a t)) → ((x : N) → (ts : List K) × Fits G (Non x) ts)
        → (f : Form T N) (ts : List K) → Begins G f ts → (more : List K) × Fits G f (ts ++ more) }
{}

/// A list stops being of a form at one place at most, and nowhere where it fits.
pub fn one_stop<T, N, K>()
    ensures place { (G : Grammar T N K) (f : Form T N) (ts l m : List K) → StopsAt G f ts l → StopsAt G f ts m → l ≡ m }
    ensures fitting { (G : Grammar T N K) (f : Form T N) (ts l : List K) → Fits G f ts → StopsAt G f ts l → ⊥ }
{}

/// A list fits a form by one sequence of choices, where the next token decides each.
pub fn one_reading<T, N, K>()
    ensures { (G : Grammar T N K) (S : Table T N) (follow : N → List T) → IsTableOf G S → IsDecided G S follow
        → (f : Form T N) → IsTrue (decides S follow [] f) → (ts : List K) (p q : Fits G f ts) → choices p ≡ choices q }
{}

/// A list of tokens is good, wrong at one place or too deep at one place, and no two of these.
pub fn one_judgement<T, N, K>()
    ensures wrong { (G : Grammar T N K) (nesting : K → Nesting) (most : ℕ) (f : Form T N) (ts l m : List K) → IsWrongAt G nesting most f ts l → IsWrongAt G nesting most f ts m → l ≡ m }
    ensures too_deep { (G : Grammar T N K) (nesting : K → Nesting) (most : ℕ) (f : Form T N) (ts : List K) (i j : ℕ) → IsTooDeepAt G nesting most f ts i → IsTooDeepAt G nesting most f ts j → i ≡ j }
    ensures good_not_wrong { (G : Grammar T N K) (nesting : K → Nesting) (most : ℕ) (f : Form T N) (ts l : List K) → IsGood G nesting most f ts → IsWrongAt G nesting most f ts l → ⊥ }
    ensures good_not_too_deep { (G : Grammar T N K) (nesting : K → Nesting) (most : ℕ) (f : Form T N) (ts : List K) (i : ℕ) → IsGood G nesting most f ts → IsTooDeepAt G nesting most f ts i → ⊥ }
    ensures wrong_not_too_deep { (G : Grammar T N K) (nesting : K → Nesting) (most : ℕ) (f : Form T N) (ts l : List K) (i : ℕ) → IsWrongAt G nesting most f ts l → IsTooDeepAt G nesting most f ts i → ⊥ }
{}
