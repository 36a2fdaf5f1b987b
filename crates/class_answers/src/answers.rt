//! Answers, and their statuses.

ghost use Rattle.class_answers.specs.Answers.{status_of};
ghost use Rattle.class_answers.specs.Naming.{NamesBad, NamesUnread};
ghost use Rattle.std.specs.Prelude.{◌≡◌};

use kt_base::Name;
use std::alloc::Global;

/// What a tool found of class files.
#[derive(Debug, Drop)]
pub enum Answer {
    /// All is as it has to be.
    Fine,
    /// The class that was read of this file is written in other bytes.
    Altered {
        file: String,
    },
    /// The words name no file.
    Usage,
    /// Memory was refused.
    NoMemory,
    /// This file can't be read.
    CannotRead {
        file: String,
    },
    /// This file is the class file of no class: the first item that breaks its rule stands at the offset
    /// (JVMS SE 8 §4.8).
    BadBytes {
        file: String,
        offset: u64,
    },
    /// Of the classes that are named this one is missing, or a member of it (JVMS SE 8 §5.3, §5.4.3).
    Missing {
        class: Name,
    },
    /// This class is above itself (JVMS SE 8 §5.3.5).
    Cyclic {
        class: Name,
    },
    /// No class has the method with which a program begins.
    NoMain,
    /// A rule of verification fails (JVMS SE 8 §4.10.1): in this class, in this method of it, counted from 1, at this
    /// offset of its code. Method 0 is the class itself.
    Rejected {
        class: Name,
        method: u32,
        offset: u32,
    },
}

impl Answer {
    /// The answer of the file of this name, which can't be read.
    pub fn cannot_read(alloc: Global, name: &str) -> Answer
        ensures { NamesUnread name.now result }
    {
        match String::from_str(alloc, name) {
            Ok(file) => Answer::CannotRead { file },
            Err(_) => Answer::NoMemory,
        }
    }

    /// The answer of the file of this name, which is a class file of no class.
    pub fn bad_bytes(alloc: Global, name: &str, offset: u64) -> Answer
        ensures { NamesBad name.now offset result }
    {
        match String::from_str(alloc, name) {
            Ok(file) => Answer::BadBytes { file, offset },
            Err(_) => Answer::NoMemory,
        }
    }

    /// The status with which the tool ends: 0 where all is as it has to be, 9 where the classes aren't accepted.
    pub fn status(&self) -> u8
        ensures { result ≡ status_of self.now }
    {
        match self {
            Answer::Fine => 0,
            Answer::Altered { .. } => 1,
            Answer::Usage => 2,
            Answer::NoMemory => 6,
            Answer::CannotRead { .. } => 7,
            Answer::BadBytes { .. }
            | Answer::Missing { .. }
            | Answer::Cyclic { .. }
            | Answer::NoMain
            | Answer::Rejected { .. } => 9,
        }
    }
}
