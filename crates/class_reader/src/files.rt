//! Whole class files (JVMS SE 8 §4.1).

ghost use Rattle.class_reader.specs.Bodies.{class_parts_seen, file_seen};
ghost use Rattle.jvm_class_formats.specs.Lawful.{IsBytes};
ghost use Rattle.jvm_class_formats.specs.Reads.{Reads};
ghost use Rattle.jvm_class_grammar.specs.File.{behind_pool, read_of, IsClassFile};
ghost use Rattle.jvm_class_types.specs.Seen.{class_seen, Class};
ghost use Rattle.jvm_pool.specs.declared.entries.Entry.{Entry};
ghost use Rattle.std.specs.Prelude.{◌≡◌, List, IfOk, Ok};

use crate::class::{ClassBody, Members, class_body};
use crate::heads::behind_head;
use jvm_class_formats::{Place, ReadErr};
use jvm_class_types::ClassFile;
use jvm_pool::Pool;
use jvm_pool_reader::read_pool;
use std::alloc::Global;

/// A class with its pool.
fn with_pool(pool: Pool, body: ClassBody) -> ClassFile
    ensures { file_seen result ≡ (pool, class_parts_seen body) }
{
    let ClassBody {
        flags,
        name,
        super_class,
        members,
    } = body;
    let Members {
        interfaces,
        fields,
        methods,
    } = members;
    ClassFile {
        pool,
        flags,
        name,
        super_class,
        interfaces,
        fields,
        methods,
    }
}

/// A class behind its pool, and nothing behind the class: each entry of the pool was mentioned.
fn whole(alloc: Global, pool: Pool, place: Place<'_>) -> Result<ClassFile, ReadErr>
    ensures { Reads file_seen result (behind_pool (pool, place.entry)) }
{
    let (body, rest) = class_body(&pool, alloc, place)?;
    if !rest.bytes.is_empty() {
        Err(ReadErr::BadBytes {
            offset: rest.offset(),
        })
    } else if rest.counter == pool.count() {
        Ok(with_pool(pool, body))
    } else {
        Err(ReadErr::BadBytes {
            offset: rest.total as u64,
        })
    }
}

/// The class of a whole file.
#[tactic(auto, unfolding(jvm_class_grammar::specs::File::read_of))]
fn class_of(alloc: Global, bytes: &[u8]) -> Result<ClassFile, ReadErr>
    ensures { Reads file_seen result (read_of bytes.now) }
{
    let place = behind_head(Place::start(bytes))?;
    let (pool, place) = read_pool(alloc, place)?;
    whole(alloc, pool, place)
}

/// Bytes are below 256.
fn are_bytes(bytes: &[u8])
    ensures { IsBytes bytes.now }
{}

/// The class that the bytes of a class file spell, with its pool.
///
/// `BadBytes` comes exactly where they spell none, with the offset of the first item in file order that breaks its
/// rule, or the file's length.
pub fn read(alloc: Global, bytes: &[u8]) -> Result<ClassFile, ReadErr>
    // The bytes are the class file of the class that is read.
    ensures found { IfOk result (λ c. IsClassFile bytes.now c.pool (class_seen c)) }
    // A class whose class file the bytes are is read, unless memory runs out.
    ensures only { (es : List Entry) (c : Class) → IsClassFile bytes.now es c → Reads file_seen result (Ok (es, c)) }
    // Which class it is, or at which offset the bytes are refused.
    ensures exact { Reads file_seen result (read_of bytes.now) }
{
    are_bytes(bytes);
    class_of(alloc, bytes)
}
