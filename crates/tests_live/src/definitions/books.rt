//! Books of texts in the toy language.
#![tactic(auto, unfolding(crate::specs::Opened::books))]

ghost use Rattle.std.specs.Prelude.{◌≡◌, [], ◌∷◌, codes};
ghost use Rattle.abc_fields.specs.declared.fault_code.FaultCode.TheVariants.{BadByte, BadReference, TuneTooLong};
ghost use Rattle.abc_tune_compiler.specs.Book.{empty_book};
ghost use Rattle.abc_tune_compiler.specs.Fault.{fault_cmp};
ghost use Rattle.abc_tune_compiler.specs.Sort.{sort_dedup};
ghost use Rattle.abc_tune_compiler.specs.Tune.{fault_in};
ghost use Rattle.tests_live.specs.Toy.{toy_book};
ghost use Rattle.tests_live.specs.Values.{faulty_blocks, faults_in_no_order};

/// Two tunes of a number: the number's file is that of the first, with the byte that the file header sets.
pub fn first_owner()
    ensures { (toy_book (codes "D:5" ∷ codes "X:1" ∷ codes "a" ∷ codes "X:1" ∷ codes "b" ∷ [])).files ≡ (1, codes "5a") ∷ [] }
{}

/// The first tune of a number has no file if it is too long, so the number's file is that of the second. A default that
/// a tune sets ends with it.
pub fn a_tune_without_a_file()
    ensures files { (toy_book (codes "X:1" ∷ codes "D:7" ∷ codes "a" ∷ codes "b" ∷ codes "c" ∷ codes "X:1" ∷ codes "d"
        ∷ [])).files ≡ (1, codes "0d") ∷ [] }
    ensures faults { (toy_book (codes "X:1" ∷ codes "D:7" ∷ codes "a" ∷ codes "b" ∷ codes "c" ∷ codes "X:1" ∷ codes "d"
        ∷ [])).faults ≡ fault_in 1 (1, TuneTooLong) ∷ [] }
{}

/// A fault has the number of its line, whatever is above it, and the titles are in the order of the tunes.
pub fn lines_of_faults()
    ensures below { (toy_book (codes "%" ∷ codes "X:7" ∷ codes "!" ∷ [])).faults ≡ fault_in 3 (1, BadByte) ∷ [] }
    ensures above { (toy_book (codes "X:7" ∷ codes "!" ∷ [])).faults ≡ fault_in 2 (1, BadByte) ∷ [] }
    ensures titles { (toy_book (codes "X:2" ∷ codes "T:a" ∷ codes "X:1" ∷ [])).titles ≡ record { number = 2; text = codes "a" }
        ∷ record { number = 1; text = [] } ∷ [] }
{}

/// The faults of the file header and of a tune, that of the whole tune in its first line.
pub fn faults_of_all_blocks()
    ensures { (toy_book faulty_blocks).faults ≡ fault_in 2 (1, BadByte) ∷ fault_in 4 (1, TuneTooLong) ∷ fault_in 5 (1, BadByte)
        ∷ [] }
{}

/// Text outside tunes adds nothing to the book.
pub fn free_text()
    ensures { toy_book (codes "a" ∷ codes "!" ∷ [] ∷ codes "T:A" ∷ []) ≡ empty_book }
{}

/// Faults are ordered by line, then by column, then by the number of the code, and each is listed once.
pub fn order_of_faults()
    ensures { sort_dedup fault_cmp faults_in_no_order ≡ fault_in 1 (2, BadReference) ∷ fault_in 1 (2, BadByte)
        ∷ fault_in 1 (9, BadByte) ∷ fault_in 2 (1, BadByte) ∷ [] }
{}
