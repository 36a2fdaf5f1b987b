//! `toString` and `equals`, which every class has.

ghost use Rattle.kt_decls_inherited.specs.Sights.{sight_form, sight_of};
ghost use Rattle.kt_decls_rules.specs.Members.{any_member, boolean_type, members_of_any, string_type};
ghost use Rattle.kt_decls_rules.specs.Names.{is_name};
ghost use Rattle.kt_types_tree.specs.Types.{any, type_form, typed};
ghost use Rattle.std.specs.Prelude.{[], ◌∷◌, ◌≡◌, ◌&&◌, ◌==◌, codes, map, true, IfOk};

use crate::sights::{FunctionTypes, Sight};
use kt_base::NoMemory;
use kt_types_tree::{KtType, TypeConstructor};
use sqlite_items::Items;
use std::alloc::Global;

/// Whether a function of this name with so many parameters is `toString`.
pub fn is_to_string(name: &[u8], count: usize) -> bool
    ensures { result ≡ (is_name name.now (codes "toString") && count == 0) }
{
    name == b"toString".as_slice() && count == 0
}

/// Whether a function of this name with so many parameters is `equals`.
pub fn is_equals(name: &[u8], count: usize) -> bool
    ensures { result ≡ (is_name name.now (codes "equals") && count == 1) }
{
    name == b"equals".as_slice() && count == 1
}

fn sight_with(parameters: Items<KtType>, given: KtType) -> Sight
    ensures { sight_form result ≡ sight_of (any_member (map type_form parameters) (type_form given)) }
{
    Sight {
        is_open: true,
        has_body: true,
        is_suspend: false,
        types: Some(FunctionTypes {
            parameters,
            result: given,
        }),
    }
}

fn to_string_sight(alloc: Global) -> Sight
    ensures { sight_form result ≡ sight_of (any_member [] string_type) }
{
    let given = KtType::plain(alloc, false, TypeConstructor::String);
    sight_with(Items::new(alloc), given)
}

fn equals_sight(alloc: Global) -> Result<Sight, NoMemory>
    ensures { IfOk result (λ sight. sight_form sight ≡ sight_of (any_member (typed true any ∷ []) boolean_type)) }
{
    let mut parameters = Items::new(alloc);
    parameters.push(KtType::any(true))?;
    let given = KtType::plain(alloc, false, TypeConstructor::Boolean);
    Ok(sight_with(parameters, given))
}

/// What is seen of the function of this name with so many parameters that every class has.
pub fn any_sights(alloc: Global, name: &[u8], count: usize) -> Result<Items<Sight>, NoMemory>
    ensures { IfOk result (λ all. map sight_form all ≡ map sight_of (members_of_any name.now count)) }
{
    let mut all = Items::new(alloc);
    if is_to_string(name, count) {
        all.push(to_string_sight(alloc))?;
    } else if is_equals(name, count) {
        all.push(equals_sight(alloc)?)?;
    }
    Ok(all)
}
