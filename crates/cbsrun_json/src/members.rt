//! The members of JSON objects.

ghost use Rattle.std.specs.Prelude.{◌≡◌, IfOk, OnOk, map};
ghost use Rattle.serde_json.specs.Data.{Data};
ghost use Rattle.serde_json.specs.View.{view, members_view};
ghost use Rattle.cbsrun_json.specs.Members.{member_of, object_of, with_members};

use serde_json::{Map, Value, put};
use std::alloc::{AllocError, Global};

/// What is told as the value of a key.
pub trait ToJson {
    // The value.
    ghost shown: { Self → Data };

    /// Returns the value. The only error is out of memory.
    fn to_json(&self, alloc: Global) -> Result<Value, AllocError>
        ensures { IfOk result (λ v. view v ≡ shown self.now) };
}

/// Puts more members among members. A key that is there already gets the new value. The only error is out of memory;
/// some may have been put then.
pub fn put_all<T: ToJson>(
    alloc: Global,
    members: &mut Map<String, Value>,
    more: &[(&str, T)],
) -> Result<(), AllocError>
    ensures { OnOk result (members_view members.new.entries
        ≡ with_members (map (member_of T.shown) more.now) (members_view members.old.entries)) }
{
    for member in more {
        let value = member.1.to_json(alloc)?;
        put(members, alloc, member.0, value)?;
    }
    Ok(())
}

/// Returns the object of these members. Of two with one key the later one stays. The only error is out of memory.
pub fn object_of<T: ToJson>(alloc: Global, told: &[(&str, T)]) -> Result<Value, AllocError>
    ensures { IfOk result (λ v. view v ≡ object_of (map (member_of T.shown) told.now)) }
{
    let mut members = Map::new(alloc);
    put_all(alloc, &mut members, told)?;
    Ok(Value::Object(members))
}
