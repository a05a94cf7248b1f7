//! What holds of an archive on a drive, whoever wrote it: a law as the contract of a function with an empty body.

ghost use Rattle.std.specs.Prelude.{◌≡◌, ◌∷◌, List, [], ℕ};
ghost use Rattle.ol_rules.specs.Shelf.{bad_blocks, objects_of};
ghost use Rattle.ol_catalog.specs.Streams.{drive_blocks};
ghost use Rattle.ol_catalog.specs.Written.{Archived, IsArchived, IsOnDrive, object_on};

/// The blocks of an archive as the archiver writes it, alone on a drive, are one complete object, and each of them belongs in it.
pub fn written_archives_are_objects()
    ensures object { (tapes : List (List (List (List ℕ)))) (drive : ℕ) (x : Archived) → IsArchived x → IsOnDrive tapes drive x → objects_of (drive_blocks tapes drive) ≡ object_on tapes drive x ∷ [] }
    ensures whole { (tapes : List (List (List (List ℕ)))) (drive : ℕ) (x : Archived) → IsArchived x → IsOnDrive tapes drive x → bad_blocks (object_on tapes drive x) ≡ [] }
{}
