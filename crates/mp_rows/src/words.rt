// What no clause says: that words are read where there is memory.

use crate::running::words_of;
use mp_base::Job;
use mp_mvalue::Value;
use mp_words::{Words, read_words};
use std::process::Abort;
use std::test::Fail;

// The job, the file, and the values of the first and the last of three definitions.
fn is_read(rt: &impl Abort, read: &Words) {
    assert_eq!(rt; read.job, Job::Expand);
    assert_eq!(rt; read.file.as_slice(), b"m".as_slice());
    let defines = read.defines.as_slice();
    assert_eq!(rt; defines.len(), 3);
    assert!(rt; matches!(defines[0].value, Value::Whole(-2)));
    assert!(rt; matches!(defines[2].value, Value::Truth(true)));
}

#[test]
fn words_are_a_job_a_file_and_definitions(rt: HostRuntime) -> Result<(), Fail> {
    let words = words_of(rt.alloc(), &["expand", "m", "N=-2", "t=", "b=true"])?;
    match read_words(rt.alloc(), &words) {
        Ok(read) => is_read(&rt, &read),
        Err(_) => assert!(rt; false),
    }
    Ok(())
}
