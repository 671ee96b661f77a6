//! What requests see.
ghost use Rattle.std.specs.{List.{AllByRecursion}, Prelude.{◌≡◌, ◌<◌, length}};
ghost use Rattle.split_engine.specs.Serial.{looks_at};

use crate::application::Application;
use crate::few::Few;

/// What a request sees at its keys.
#[inline(always)]
pub fn looks_at<A: Application>(table: &[A::Record], keys: &Few<u32>) -> Few<A::Look>
    requires within { AllByRecursion (λ key. key < length table.now) keys.now }
    ensures { result ≡ looks_at A.rules table.now keys.now }
{
    let mut looks = Few::none();
    for key in keys.iter() {
        looks = looks.and(A::look(&table[key as usize]));
    }
    looks
}
