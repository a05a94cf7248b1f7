//! What holds of the newest anchor, whoever reads the pair.

ghost use Rattle.std.specs.Prelude.{◌≡◌, ◌<◌, Bool, Option, false, ℕ};
ghost use Rattle.ol_ports.specs.Disk.{Bytes, Past, Rest};
ghost use Rattle.ol_ports.specs.Frames.{FramedIn};
ghost use Rattle.ol_ports.specs.Stops.{Stops};
ghost use Rattle.ol_reserve.specs.Pair.{IsReady, Newest};
ghost use Rattle.ol_reserve.specs.declared.anchor.Anchor.{Anchor as AnchorValue};

/// The newest anchor of a pair is one, and depends on the two pages alone. Whatever a stop leaves of a pair that is ready has the
/// same newest anchor, and calls on other pages leave the pair ready.
pub fn newest_anchor_is_of_its_pages()
    ensures one { (d : Bytes) (a b : Option AnchorValue) → Newest d a → Newest d b → a ≡ b }
    ensures pages { (d e : Bytes) (now : Option AnchorValue) → ((page i : ℕ) → page < 2 → d 0 page i ≡ e 0 page i) → Newest e now → Newest d now }
    ensures stop { (past : Past) (now : Option AnchorValue) → IsReady past now → (d : Bytes) → Rest past d → Newest d now }
    ensures elsewhere { (old new : Past) (is_in : ℕ → ℕ → Bool) (now : Option AnchorValue) → ((page : ℕ) → page < 2 → is_in 0 page ≡ false) → Stops old new (FramedIn old is_in) → IsReady old now → IsReady new now }
{}
