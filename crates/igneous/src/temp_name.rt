ghost use Rattle.std.specs.Prelude.{◌≡◌, ◌<◌, ℕ, List, All, IfOk, Some, false, length, drop};
ghost use Rattle.uuid.specs.Text.{parsed};
ghost use Rattle.ig_space.specs.Path.{is_path};
ghost use Rattle.igneous.specs.Temp.{temp_text};

use ig_store::Text;
use std::alloc::{AllocError, Global};
use uuid::Uuid;

/// The file in which bytes stand until they are whole. No path is that file.
pub fn temp_name(alloc: Global, id: &Uuid) -> Result<Text, AllocError>
    ensures text { IfOk result (λ name. name ≡ temp_text id.now) }
    ensures parsed { IfOk result (λ name. parsed (drop 8 name) ≡ Some id.now) }
    ensures apart { IfOk result (λ name. is_path name ≡ false) }
{
    let mut buffer = Uuid::encode_buffer();
    let id = id.hyphenated().encode_lower(&mut buffer);
    let text = format!(in alloc; ".ig-tmp/{id}")?;
    Ok(Text::from_string(text))
}

/// Different ids give different names.
pub fn temp_names_differ()
    ensures { (a b : List ℕ) → length a ≡ 16 → length b ≡ 16 → All (λ n. n < 256) a → All (λ n. n < 256) b
        → temp_text a ≡ temp_text b → a ≡ b }
{}
