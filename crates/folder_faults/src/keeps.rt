// What a stopped keeper leaves in its folder, with ample memory.
use crate::stops::{Steps, StoppingFiles};
use bytes::Bytes;
use cool_base::FileId;
use folder_keeper::FolderKeeper;
use std::fs;
use std::test::Fail;
use wopi_host::Keeper;

const FOLDER: &str = "folder_faults_test";

const PATH: &str = "folder_faults_test/d";

// The old content, and the one that is kept.
const OLD: &[u8] = b"old";

const NEW: &[u8] = b"new!";

// Keeping four bytes takes eleven steps after the keeper is opened, which takes one: to see what is
// there, to open the folder, to remove what lies beside, to make the file there, four to write, to
// sync it, to rename it, to sync the folder. Only after the rename is the content the new one.
#[test]
fn a_stop_leaves_the_old_content_or_the_new(rt: HostRuntime) -> Result<(), Fail> {
    let alloc = rt.alloc();
    let _ = fs::remove_dir_all(&rt, FOLDER);
    fs::create_dir(&rt, FOLDER)?;
    let file = FileId::read("d").expect(&rt, "a file id");
    for stops_at in 2..15u64 {
        fs::write(&rt, PATH, OLD)?;
        let steps = Steps::new(stops_at);
        let files = StoppingFiles {
            rt: &rt,
            alloc,
            steps: &steps,
        };
        let opened = FolderKeeper::open(&files, alloc, FOLDER);
        let mut keeper = opened.ok().expect(&rt, "a keeper");
        let kept = keeper.keep(alloc, &file, &Bytes::from_static(NEW)).is_ok();
        let left = fs::read(&rt, PATH)?;
        let is_new = left.as_slice() == NEW;
        let is_old = left.as_slice() == OLD;
        assert!(rt; is_new || is_old);
        assert_eq!(rt; kept, stops_at > 12);
        assert_eq!(rt; is_new, stops_at > 11);
    }
    fs::remove_dir_all(&rt, FOLDER)?;
    Ok(())
}
