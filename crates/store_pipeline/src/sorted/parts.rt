//! A part of an answer.

ghost use Rattle.std.specs.Prelude.{◌≡◌, drop};
ghost use Rattle.store_pipeline.specs.Order.{cut};

/// The answers without the first `skip`, and of these at most `limit`.
pub fn window<T>(answers: &[T], skip: usize, limit: Option<usize>) -> &[T]
    ensures { result.now ≡ cut skip limit answers.now }
{
    let rest = if skip < answers.len() {
        &answers[skip..]
    } else {
        &[]
    };
    match limit {
        None => rest,
        Some(most) => {
            if most < rest.len() {
                &rest[..most]
            } else {
                rest
            }
        }
    }
}

/// Takes the first `count` away, or all if there are fewer.
fn drop_first<T: Drop>(answers: &mut Vec<T>, count: usize)
    ensures { answers.new.items ≡ drop count answers.old.items }
{
    let all = answers.len();
    if count < all {
        answers.rotate_left(count);
        answers.truncate(all - count);
    } else {
        answers.clear();
    }
}

/// The same part of answers that are the caller's own, without a copy.
pub fn into_window<T: Drop>(mut answers: Vec<T>, skip: usize, limit: Option<usize>) -> Vec<T>
    ensures { result.items ≡ cut skip limit answers.items }
{
    drop_first(&mut answers, skip);
    if let Some(most) = limit {
        answers.truncate(most);
    }
    answers
}
