// Answers of mysql_native_password.
use check_lines::Fields;
use native_auth::Answer;
use sha1::Sha1;

/// `sha1 <bytes>`: their digest.
pub fn digest(fields: &mut Fields<'_>) {
    let bytes = fields.rest_bytes();
    fields.answer.bytes(&Sha1::digest(&bytes));
}

/// `answer <salt> <password>`: what a client answers.
pub fn answer(fields: &mut Fields<'_>) {
    let salt = fields.array();
    let password = fields.rest_bytes();
    match native_auth::answer(&password, &salt) {
        Answer::Empty => fields.answer.text("empty"),
        Answer::Bytes(bytes) => fields.answer.bytes(&bytes),
    }
}

/// `check <salt> <given> <password>`: whether the given bytes are the answer.
pub fn check(fields: &mut Fields<'_>) {
    let salt = fields.array();
    let given = fields.bytes();
    let password = fields.rest_bytes();
    let is_right = native_auth::check(&password, &salt, &given);
    fields.answer.debug(is_right);
}
