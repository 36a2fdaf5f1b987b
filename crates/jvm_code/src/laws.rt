//! Laws of bytes and code: functions that do nothing, whose contracts say them.

ghost use Rattle.std.specs.Prelude.{◌≡◌, ◌<◌, ◌^◌, ℕ, List, length, Ok};
ghost use Rattle.jvm_code_instructions.specs.Table.{Row};
ghost use Rattle.jvm_code.specs.Spelling.{spelling};
ghost use Rattle.jvm_code.specs.Decoding.{decode_of, IsLaid};

/// What is encoded is decoded as the same list.
pub fn encoded_is_decoded()
    ensures { (c : List (ℕ × Row)) → IsLaid c → length (spelling c) < 2 ^ 32 → decode_of (spelling c) ≡ Ok c }
{}

/// Two lists with one spelling are one list.
pub fn spelling_has_one_list()
    ensures { (c d : List (ℕ × Row)) → IsLaid c → IsLaid d → length (spelling c) < 2 ^ 32
        → spelling c ≡ spelling d → c ≡ d }
{}

/// What is decoded is laid and is encoded as the same bytes: nothing else is decoded.
pub fn decoded_is_encoded(bytes: &[u8])
    requires { length bytes.now < 2 ^ 32 }
    ensures { (c : List (ℕ × Row)) → decode_of bytes.now ≡ Ok c → IsLaid c × (spelling c ≡ bytes.now) }
{}
